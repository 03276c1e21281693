// The entries that a block of rows is run in: as many as the module's room needs, in four sizes. The function that picks one calls itself: into
// such a function LLVM takes no large array of another, so a small module does not pay for the stack of a large one.
#![tactic(auto)]

ghost use Rattle.std.specs.Prelude.{◌≡◌, ◌≤◌, ◌<◌, length};
ghost use Rattle.meaning.specs.Layout.{each};
ghost use Rattle.meaning.specs.Rows.{rows_of, row_outputs};
ghost use Rattle.image.specs.Laid.{laid};
ghost use Rattle.run_rows.specs.Running.{RowsRun};

use image::Image;
use open_finding::Site;

// In N entries. A small module should not pay for clearing many.
fn in_entries<const N: usize>(
    image: Image<'_>,
    site: Site,
    rows: usize,
    values: &[u8],
    out: &mut [u8],
)
    requires entries_bound { N ≤ 65536 }
    requires rows_run { RowsRun image.numbers.now image.starts.now image.nets.now site rows values.now N (length out.old) }
    ensures { (s : RowsRun image.entry.numbers.now image.entry.starts.now image.entry.nets.now site rows values.now N (length out.old))
        → out.new ≡ laid out.old 0 (each (row_outputs s.standing.ms site.number) (rows_of rows (length s.standing.found.m.inputs) values.now)) }
{
    let mut entries = [[0u64; 8]; N];
    run_rows::blocks::run_rows(image, site, rows, values, &mut entries, out);
}

// The next size.
fn larger(size: u32) -> u32
    requires { size < 65536 }
    ensures { (size < result) × (result ≤ 65536) }
{
    if size < 1024 {
        return 1024;
    }
    if size < 8192 { 8192 } else { 65536 }
}

// The rows of any module, in the least size from one on that has its room.
pub fn run(size: u32, image: Image<'_>, site: Site, rows: usize, values: &[u8], out: &mut [u8])
    requires { RowsRun image.numbers.now image.starts.now image.nets.now site rows values.now 65536 (length out.old) }
    ensures { (s : RowsRun image.entry.numbers.now image.entry.starts.now image.entry.nets.now site rows values.now 65536 (length out.old))
        → out.new ≡ laid out.old 0 (each (row_outputs s.standing.ms site.number) (rows_of rows (length s.standing.found.m.inputs) values.now)) }
{
    let room = site.room;
    if size < room {
        run(larger(size), image, site, rows, values, out);
    } else if size <= 256 {
        in_entries::<256>(image, site, rows, values, out);
    } else if size <= 1024 {
        in_entries::<1024>(image, site, rows, values, out);
    } else if size <= 8192 {
        in_entries::<8192>(image, site, rows, values, out);
    } else {
        in_entries::<65536>(image, site, rows, values, out);
    }
}
