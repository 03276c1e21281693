// A listing of a file for the board maker. The text is written from the file's own numbers, which stay beside the image when the file is checked.
#![tactic(auto)]

ghost use Rattle.std.specs.Prelude.{◌≤◌, length};
ghost use Rattle.meaning.specs.Ndl.{ndl_listing};
ghost use Rattle.answers.specs.Answers.{Answers};
ghost use Rattle.open_file.specs.Spaces.{Clear};

use ndl_answer::list;
use refusals::Refusal;

// In a list of so many numbers, an image of as many, and tables of so many entries.
fn write_in<const NUMBERS: usize, const TABLE: usize>(
    file: &[u8],
    names: &[u8],
    out: &mut [u8],
) -> Result<usize, Refusal>
    requires numbers_bound { NUMBERS ≤ 65535 }
    requires table_bound { TABLE ≤ 16384 }
    requires clear { Clear file.now NUMBERS TABLE }
    ensures { Answers (ndl_listing file.now names.now (length out.old)) out.old out.new result }
{
    let mut numbers = [0u16; NUMBERS];
    let mut offsets = [0usize; 129];
    let mut image = [0u16; NUMBERS];
    let mut starts = [0usize; 128];
    let mut modules = [0u16; 128];
    let mut nets = [0usize; 128];
    let mut sizes = [0u32; 128];
    let mut rooms = [0u32; 128];
    let mut first = [0u16; TABLE];
    let mut slots = [0u32; TABLE];
    let extent = open_beside::prepare(
        file,
        &mut numbers,
        &mut offsets,
        &mut image,
        &mut starts,
        &mut modules,
        &mut nets,
        &mut sizes,
        &mut rooms,
        &mut first,
        &mut slots,
    )?;
    list(names, &numbers[..extent.numbers], file.len(), out)
}

// A short file should not pay for clearing long lists.
pub fn write_ndl(file: &[u8], names: &[u8], out: &mut [u8]) -> Result<usize, Refusal>
    ensures { Answers (ndl_listing file.now names.now (length out.old)) out.old out.new result }
{
    if 1024 < file.len() {
        return write_in::<65535, 16384>(file, names, out);
    }
    if open_shortness::is_short(file) {
        write_in::<1024, 512>(file, names, out)
    } else {
        write_in::<65535, 16384>(file, names, out)
    }
}
