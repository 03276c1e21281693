// A module run on rows of values: block after block, each in one walk.
ghost use Rattle.std.specs.Prelude.{◌≡◌, length};
ghost use Rattle.meaning.specs.Layout.{each};
ghost use Rattle.meaning.specs.Rows.{rows_of, row_outputs};
ghost use Rattle.image.specs.Laid.{laid};
ghost use Rattle.run_rows.specs.Joined.{joined};
ghost use Rattle.run_rows.specs.Running.{BlockRuns, row_from, RowsRun};

use image::Image;
use open_finding::Site;
use run_wide::gate::Rows;

// Up to 256 rows that stand from a place on. Their outputs come to the places from `at` on.
fn run_block(
    image: Image<'_>,
    site: Site,
    values: &[u8],
    from: usize,
    count: usize,
    entries: &mut [[u64; 8]],
    at: usize,
    out: &mut [u8],
)
    requires { BlockRuns image.numbers.now image.starts.now image.nets.now site values.now from count (length entries.old) at (length out.old) }
    ensures { (s : BlockRuns image.entry.numbers.now image.entry.starts.now image.entry.nets.now site values.now from count (length entries.old) at (length out.old))
        → out.new ≡ laid out.old at (joined (λ r. row_outputs s.standing.ms site.number (row_from (length s.standing.found.m.inputs) values.now from r)) count) }
{
    let k = site.position;
    let header = image.module(k);
    lanes::rows::take_block(values, header.inputs, from, count, entries);
    run_walk::walk::run_module::<Rows>(&image, k, entries);
    crate::outputs::give_block(
        image.numbers,
        header.from,
        header.to,
        entries,
        count,
        at,
        out,
    );
}

// All rows.
pub fn run_rows(
    image: Image<'_>,
    site: Site,
    rows: usize,
    values: &[u8],
    entries: &mut [[u64; 8]],
    out: &mut [u8],
)
    requires { RowsRun image.numbers.now image.starts.now image.nets.now site rows values.now (length entries.old) (length out.old) }
    ensures { (s : RowsRun image.entry.numbers.now image.entry.starts.now image.entry.nets.now site rows values.now (length entries.old) (length out.old))
        → out.new ≡ laid out.old 0 (each (row_outputs s.standing.ms site.number) (rows_of rows (length s.standing.found.m.inputs) values.now)) }
{
    let header = image.module(site.position);
    let inputs = header.inputs;
    let outputs = header.to - header.from;
    for block in 0..rows.div_ceil(256) {
        let done = block * 256;
        let some = (rows - done).min(256);
        run_block(
            image,
            site,
            values,
            done * inputs,
            some,
            entries,
            done * outputs,
            out,
        );
    }
}
