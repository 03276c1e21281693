// From what reading a text gives to the file: its refusal, or 1, 6 to 17 and 22.
#![tactic(auto)]

mod filing; // filing.rt: from the numbers to the answer

ghost use Rattle.std.specs.Prelude.{length};
ghost use Rattle.answers.specs.Answers.{Answers};
ghost use Rattle.text_file.specs.Filing.{Ready, after_reading};

use crate::filing::file;
use refusals::Refusal;

// In lists that are long enough: what was read is filed, or refused.
pub fn answer(
    text: &[u8],
    read: Result<usize, Refusal>,
    numbers: &[u16],
    bytes: &mut [u8],
    out: &mut [u8],
) -> Result<usize, Refusal>
    requires { Ready text.now read numbers.now bytes.old }
    ensures { Answers (after_reading text.now (length out.old)) out.old out.new result }
{
    let count = read?;
    file(&numbers[..count], bytes, out)
}
