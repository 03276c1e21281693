// A file as a text in the published list form, written from the file's own numbers, which stay beside the image when the file is checked.
#![tactic(auto)]

ghost use Rattle.std.specs.Prelude.{◌≤◌, length};
ghost use Rattle.meaning.specs.ListPrint.{list_printing};
ghost use Rattle.answers.specs.Answers.{Answers};
ghost use Rattle.open_file.specs.Spaces.{Clear};

use print_answer::tell;
use refusals::Refusal;

// In a list of so many numbers, an image of as many, and tables of so many entries.
fn print_in<const NUMBERS: usize, const TABLE: usize>(
    file: &[u8],
    out: &mut [u8],
) -> Result<usize, Refusal>
    requires numbers_bound { NUMBERS ≤ 65535 }
    requires table_bound { TABLE ≤ 16384 }
    requires clear { Clear file.now NUMBERS TABLE }
    ensures { Answers (list_printing file.now (length out.old)) out.old out.new result }
{
    let mut numbers = [0u16; NUMBERS];
    let mut offsets = [0usize; 129];
    let mut image = [0u16; NUMBERS];
    let mut starts = [0usize; 128];
    let mut modules = [0u16; 128];
    let mut nets = [0usize; 128];
    let mut sizes = [0u32; 128];
    let mut rooms = [0u32; 128];
    let mut first = [0u16; TABLE];
    let mut slots = [0u32; TABLE];
    let extent = open_beside::prepare(
        file,
        &mut numbers,
        &mut offsets,
        &mut image,
        &mut starts,
        &mut modules,
        &mut nets,
        &mut sizes,
        &mut rooms,
        &mut first,
        &mut slots,
    )?;
    tell(&numbers[..extent.numbers], file.len(), out)
}

// A short file should not pay for clearing long lists.
pub fn print_text(file: &[u8], out: &mut [u8]) -> Result<usize, Refusal>
    ensures { Answers (list_printing file.now (length out.old)) out.old out.new result }
{
    if 1024 < file.len() {
        return print_in::<65535, 16384>(file, out);
    }
    if open_shortness::is_short(file) {
        print_in::<1024, 512>(file, out)
    } else {
        print_in::<65535, 16384>(file, out)
    }
}
