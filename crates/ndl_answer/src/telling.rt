// The text of a file's numbers under good names, or 22.
ghost use Rattle.std.specs.Prelude.{◌≡◌, length};
ghost use Rattle.meaning.specs.Calls.{fitting};
ghost use Rattle.meaning.specs.Ndl.{ndl_text};
ghost use Rattle.answers.specs.Answers.{Answers};
ghost use Rattle.ndl_text.specs.Standing.{FileTold};
ghost use Rattle.ndl_answer.specs.Numbered.{Numbered};

use ndl_text::put_file;
use refusals::Refusal;

// Through a list that has room for it: its length decides.
fn tell_through(
    names: &[u8],
    numbers: &[u16],
    text: &mut [u8],
    out: &mut [u8],
) -> Result<usize, Refusal>
    requires { FileTold names.now numbers.now text.old }
    ensures { (t : FileTold names.now numbers.now text.old)
        → Answers (fitting (ndl_text names.now t.ms) 0 (length out.old)) out.old out.new result }
{
    let count = put_file(names, numbers, text);
    write_order::answer::answer(&text[..count], out)
}

// The text of a file of so many bytes has at most 8 for each and 4,654 more. Where the buffer has these it is written at once.
pub(crate) fn tell(
    names: &[u8],
    numbers: &[u16],
    size: usize,
    out: &mut [u8],
) -> Result<usize, Refusal>
    requires { Numbered numbers.now size × (length names.now ≡ 128) }
    ensures { (t : Numbered numbers.now size)
        → Answers (fitting (ndl_text names.now t.ms) 0 (length out.old)) out.old out.new result }
{
    if 8 * size + 4654 <= out.len() {
        return Ok(put_file(names, numbers, out));
    }
    if size <= 1024 {
        let mut text = [0u8; 12846];
        return tell_through(names, numbers, &mut text, out);
    }
    let mut text = [0u8; 528934];
    tell_through(names, numbers, &mut text, out)
}
