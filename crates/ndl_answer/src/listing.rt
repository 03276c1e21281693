// Of a file's numbers: the names that are lent, and then the text.
ghost use Rattle.std.specs.Prelude.{length};
ghost use Rattle.meaning.specs.Ndl.{ndl_on};
ghost use Rattle.answers.specs.Answers.{Answers};
ghost use Rattle.ndl_answer.specs.Numbered.{Numbered};

use crate::telling::tell;
use ndl_names::first_bad;
use refusals::Refusal;

// 29 if there are not 128 bytes or a name is bad or used before; then 22.
pub fn list(names: &[u8], numbers: &[u16], size: usize, out: &mut [u8]) -> Result<usize, Refusal>
    requires { Numbered numbers.now size }
    ensures { (t : Numbered numbers.now size)
        → Answers (ndl_on names.now (length out.old) t.ms) out.old out.new result }
{
    if names.len() != 128 {
        return Err(Refusal {
            number: 29,
            place: 0,
        });
    }
    let bad = first_bad(names);
    if bad != 16 {
        return Err(Refusal {
            number: 29,
            place: bad,
        });
    }
    tell(names, numbers, size, out)
}
