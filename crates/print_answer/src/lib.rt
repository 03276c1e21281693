// What printing answers of a checked file, from its own numbers. The text goes straight to the lent buffer where that is long enough for any text
// of such a file, and otherwise through a list of the call's own, so that a refusal changes nothing that was lent.
#![tactic(auto)]

ghost use Rattle.std.specs.Prelude.{length};
ghost use Rattle.meaning.specs.ListPrint.{printing_of};
ghost use Rattle.answers.specs.Answers.{Answers};
ghost use Rattle.ndl_answer.specs.Numbered.{Numbered};
ghost use Rattle.print_lines.specs.Standing.{FileTold};

use print_lines::put_file;
use refusals::Refusal;

// Through a list that has room for it: its length decides.
fn tell_through(numbers: &[u16], text: &mut [u8], out: &mut [u8]) -> Result<usize, Refusal>
    requires { FileTold numbers.now text.old }
    ensures { (t : FileTold numbers.now text.old)
        → Answers (printing_of (length out.old) t.ms) out.old out.new result }
{
    let count = put_file(numbers, text);
    write_order::answer::answer(&text[..count], out)
}

// The text of a file of so many bytes has at most 6 for each. Where the buffer has these it is written at once.
pub fn tell(numbers: &[u16], size: usize, out: &mut [u8]) -> Result<usize, Refusal>
    requires { Numbered numbers.now size }
    ensures { (t : Numbered numbers.now size)
        → Answers (printing_of (length out.old) t.ms) out.old out.new result }
{
    if 6 * size <= out.len() {
        return Ok(put_file(numbers, out));
    }
    if size <= 1024 {
        let mut text = [0u8; 6144];
        return tell_through(numbers, &mut text, out);
    }
    let mut text = [0u8; 393210];
    tell_through(numbers, &mut text, out)
}
