// The counts of a record added to the sums of those before it, in 64 bits.
ghost use Rattle.std.specs.Prelude.{◌≡◌, ℕ, List, map, length};
ghost use Rattle.fasta.specs.Sums.{add_tables};
ghost use Rattle.fasta.specs.Steps.{low};

use std::num::wrapping_add_u64;

fn wide(count: u32) -> u64
    ensures { result ≡ count }
{
    count as u64
}

pub(crate) fn add_counts(counts: &[u32], table: &mut [u64])
    requires counts_len { length counts.now ≡ 33 }
    requires table_len { length table.old ≡ 33 }
    ensures { (sums : List ℕ) → table.old ≡ map low sums → table.new ≡ map low (add_tables sums counts.now) }
{
    for i in 0..33 {
        table[i] = wrapping_add_u64(table[i], wide(counts[i]));
    }
}
