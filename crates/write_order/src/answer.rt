// How a writer answers, once the bytes of its file stand in a list of its own.
ghost use Rattle.std.specs.Prelude.{length};
ghost use Rattle.meaning.specs.Calls.{fitting};
ghost use Rattle.answers.specs.Answers.{Answers};

use refusals::Refusal;
use write_pieces::bytes::copy;

// Writes the bytes, or gives 22 where the buffer is shorter.
pub fn answer(bytes: &[u8], out: &mut [u8]) -> Result<usize, Refusal>
    ensures { Answers (fitting bytes.now 0 (length out.old)) out.old out.new result }
{
    if bytes.len() <= out.len() {
        Ok(copy(bytes, out, 0))
    } else {
        Err(Refusal {
            number: 22,
            place: 0,
        })
    }
}
