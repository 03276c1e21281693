// A record: its bases, one by one, and what it comes to when it is complete.
ghost use Rattle.std.specs.Prelude.{◌≡◌, ℕ, ◌≤◌, List, [], ◌∷◌, ◌++◌, map, length};
ghost use Rattle.meaning.specs.Filing.{filing_sequence};
ghost use Rattle.fasta.specs.Sums.{Sums, filed_as, after_record};
ghost use Rattle.fasta.specs.Steps.{low, Front, Kept};

use refusals::Refusal;
use std::num::wrapping_add_u64;

// The records that are complete: how many they are and how many words they have.
#[derive(Clone, Copy, PartialEq, Eq, Debug)]
pub struct Tally {
    pub records: u64,
    pub words: u64,
}

// The first record that was refused, with how many records stand before it.
#[derive(Clone, Copy, PartialEq, Eq, Debug)]
pub struct Refused {
    pub refusal: Refusal,
    pub before: u64,
}

// One base more. What has no room is left out: a buffer of 65,536 bytes holds so much of a record that it is refused like the whole.
pub(crate) fn put(byte: u8, bases: &mut [u8], filled: usize) -> usize
    requires { filled ≤ length bases.old }
    ensures upper_bound { result ≤ length bases.old }
    ensures by_index { (gene : List ℕ) → Front gene bases.old filled → Front (gene ++ (byte ∷ [])) bases.new result }
{
    if filled == bases.len() {
        return filled;
    }
    bases[filled] = byte;
    filled + 1
}

fn wide(words: usize) -> u64
    ensures { result ≡ words }
{
    words as u64
}

// A record behind so many others, of so many words, none of which was refused.
pub(crate) fn file_record(
    letters: usize,
    bases: &[u8],
    table: &mut [u64],
    tally: Tally,
) -> Result<Tally, Refused>
    requires { length table.old ≡ 33 }
    ensures { (before counted : ℕ) (sums : List ℕ) → tally.records ≡ low before → tally.words ≡ low counted → table.old ≡ map low sums
        → Kept (filed_as before counted sums (filing_sequence bases.now letters 33)) table.new result }
{
    let mut counts = [0u32; 33];
    match filing::file_sequence(bases, letters, &mut counts) {
        Ok(more) => {
            crate::adding::add_counts(&counts, table);
            Ok(Tally {
                records: wrapping_add_u64(tally.records, 1),
                words: wrapping_add_u64(tally.words, wide(more)),
            })
        }
        Err(refusal) => Err(Refused {
            refusal,
            before: tally.records,
        }),
    }
}

// A record is complete. Behind one that was refused none is filed.
pub(crate) fn close_record(
    letters: usize,
    bases: &[u8],
    table: &mut [u64],
    tally: Result<Tally, Refused>,
) -> Result<Tally, Refused>
    requires { length table.old ≡ 33 }
    ensures { (s : Sums) → Kept s table.old tally → Kept (after_record letters bases.now s) table.new result }
{
    file_record(letters, bases, table, tally?)
}
