// The rewriting: 1 to 17; then 4, 16, 17 and 1 of the new file in that order, each over the whole file before the next; then 22. The new file
// is written to a list of the call's own, so that a refusal changes nothing that was lent.
ghost use Rattle.std.specs.Prelude.{◌≤◌, length};
ghost use Rattle.meaning.specs.Withdrawn.{rewrite_file, rewriting};
ghost use Rattle.answers.specs.Answers.{Answers};
ghost use Rattle.rewrite_bytes.specs.Modules.{Rewritable};
ghost use Rattle.open_file.specs.Spaces.{Clear};
ghost use Rattle.call_rewrite.specs.Growing.{finished, Keeping, Readied};

use crate::deciding::{Decided, decide};
use image::Image;
use refusals::Refusal;

// The bytes of the new file, from the file's own numbers and bytes: 1, then 22, and then what is lent is written.
fn finish(
    file: &[u8],
    numbers: &[u16],
    starts: &[usize],
    offsets: &[usize],
    modules: usize,
    own: &[u32],
    new: &mut [u8],
    out: &mut [u8],
) -> Result<usize, Refusal>
    requires { Rewritable file.now numbers.now starts.now offsets.now modules own.now (length new.old) }
    ensures { (s : Rewritable file.now numbers.now starts.now offsets.now modules own.now (length new.old))
        → Answers (finished (rewrite_file s.ms) (length out.old)) out.old out.new result }
{
    let long = rewrite_bytes::files::put_file(file, numbers, starts, offsets, modules, own, new);
    if 65535 < long {
        return Err(Refusal {
            number: 1,
            place: 0,
        });
    }
    write_order::answer::answer(&new[..long], out)
}

// In a list of so many bytes, three for each of the file's.
fn finish_in<const BYTES: usize>(
    file: &[u8],
    numbers: &[u16],
    starts: &[usize],
    offsets: &[usize],
    modules: usize,
    own: &[u32],
    out: &mut [u8],
) -> Result<usize, Refusal>
    requires bytes_bound { BYTES ≤ 196605 }
    requires rewritable { Rewritable file.now numbers.now starts.now offsets.now modules own.now BYTES }
    ensures { (s : Rewritable file.now numbers.now starts.now offsets.now modules own.now BYTES)
        → Answers (finished (rewrite_file s.ms) (length out.old)) out.old out.new result }
{
    let mut new = [0u8; BYTES];
    finish(file, numbers, starts, offsets, modules, own, &mut new, out)
}

// A file that keeps the ceilings 4, 16 and 17. Behind the last module the file ends. A file that stays as it is makes no list for a new one, and a
// short file a short one.
fn write_new(
    file: &[u8],
    numbers: &[u16],
    starts: &[usize],
    offsets: &mut [usize],
    modules: usize,
    own: &[u32],
    out: &mut [u8],
) -> Result<usize, Refusal>
    requires { Keeping file.now numbers.now starts.now offsets.old modules own.now }
    ensures { (k : Keeping file.now numbers.now starts.now offsets.old modules own.now)
        → Answers (finished (rewrite_file k.ms) (length out.old)) out.old out.new result }
{
    offsets[modules] = file.len();
    if file.len() <= 1024 {
        finish_in::<3072>(file, numbers, starts, offsets, modules, own, out)
    } else {
        finish_in::<196605>(file, numbers, starts, offsets, modules, own, out)
    }
}

// A file that was made ready, with its own numbers beside the image.
fn rewrite_ready(
    file: &[u8],
    numbers: &[u16],
    count: usize,
    offsets: &mut [usize],
    image: Image<'_>,
    sizes: &[u32],
    modules: usize,
    out: &mut [u8],
) -> Result<usize, Refusal>
    requires { Readied file.now numbers.now count offsets.old image.numbers.now image.starts.now image.nets.now sizes.now modules }
    ensures { Answers (rewriting file.now (length out.old)) out.old out.new result }
{
    let mut own = [0u32; 128];
    let decided = decide(image, sizes, modules, &mut own)?;
    match decided {
        Decided::Stays => write_order::answer::answer(file, out),
        Decided::Go => write_new(
            file,
            &numbers[..count],
            image.starts,
            offsets,
            modules,
            &own,
            out,
        ),
    }
}

// In a list of so many numbers, an image of as many, and tables of so many entries.
fn rewrite_in<const NUMBERS: usize, const TABLE: usize>(
    file: &[u8],
    out: &mut [u8],
) -> Result<usize, Refusal>
    requires numbers_bound { NUMBERS ≤ 65535 }
    requires table_bound { TABLE ≤ 16384 }
    requires clear { Clear file.now NUMBERS TABLE }
    ensures { Answers (rewriting file.now (length out.old)) out.old out.new result }
{
    let mut numbers = [0u16; NUMBERS];
    let mut offsets = [0usize; 129];
    let mut image = [0u16; NUMBERS];
    let mut starts = [0usize; 128];
    let mut names = [0u16; 128];
    let mut nets = [0usize; 128];
    let mut sizes = [0u32; 128];
    let mut rooms = [0u32; 128];
    let mut first = [0u16; TABLE];
    let mut slots = [0u32; TABLE];
    let extent = open_beside::prepare(
        file,
        &mut numbers,
        &mut offsets,
        &mut image,
        &mut starts,
        &mut names,
        &mut nets,
        &mut sizes,
        &mut rooms,
        &mut first,
        &mut slots,
    )?;
    let image = Image {
        numbers: &image,
        starts: &starts,
        nets: &nets,
    };
    rewrite_ready(
        file,
        &numbers,
        extent.numbers,
        &mut offsets,
        image,
        &sizes,
        extent.modules,
        out,
    )
}

// A short file should not pay for clearing long lists.
pub fn rewrite(file: &[u8], out: &mut [u8]) -> Result<usize, Refusal>
    ensures { Answers (rewriting file.now (length out.old)) out.old out.new result }
{
    if 1024 < file.len() {
        return rewrite_in::<65535, 16384>(file, out);
    }
    if open_shortness::is_short(file) {
        rewrite_in::<1024, 512>(file, out)
    } else {
        rewrite_in::<65535, 16384>(file, out)
    }
}
