// Tallies kept by position, so that a module is counted once and not each time it is reached: a row of sixteen counts for each module,
// and whether the row is filled.
ghost use Rattle.std.specs.Prelude.{◌≡◌, false, ◌+◌, ◌*◌, ◌≤◌, length, get_or};
ghost use Rattle.tally_engine.specs.Rows.{row, RowWritten, Filled};

use crate::Tally;

// Whether the row of the module at position k is filled. A position behind the rows has none.
pub fn is_filled(filled: &[bool], k: usize) -> bool
    ensures { result ≡ get_or filled.now k false }
{
    if k < filled.len() { filled[k] } else { false }
}

// The tally in row k.
pub fn row_at(rows: &[u32], k: usize) -> Tally
    requires { 16 * k + 16 ≤ length rows.now }
    ensures { result.counts ≡ row rows.now k }
{
    let mut counts = [0u32; 16];
    image::buffers::copy(rows, 16 * k, 16, &mut counts, 0);
    Tally { counts }
}

// Row k holds a tally, where it is one of so many rows.
pub fn write_row(tally: Tally, k: usize, count: usize, rows: &mut [u32])
    requires { 16 * count ≤ length rows.old }
    ensures { RowWritten tally.counts k count rows.old rows.new }
{
    if k < count {
        let counts = tally.counts;
        image::buffers::copy(&counts, 0, 16, rows, 16 * k);
    }
}

// Row k is filled with a tally. A position behind the rows has none, and nothing is kept of it.
pub fn fill_row(tally: Tally, k: usize, rows: &mut [u32], filled: &mut [bool])
    requires { 16 * length filled.old ≤ length rows.old }
    ensures { Filled tally.counts k rows.old filled.old rows.new filled.new }
{
    write_row(tally, k, filled.len(), rows);
    if k < filled.len() {
        filled[k] = true;
    }
}
