// The numbers of a file, and from there on: 1 if it is over 65,535 bytes, the check, and 22.
ghost use Rattle.std.specs.Prelude.{◌≡◌, ◌≤◌, ◌<◌, length};
ghost use Rattle.meaning.specs.Verdict.{file_verdict};
ghost use Rattle.meaning.specs.Layout.{each, number_bytes, encode};
ghost use Rattle.meaning.specs.Calls.{if_good, fitting};
ghost use Rattle.meaning.specs.ListCall.{shelving};
ghost use Rattle.answers.specs.Answers.{Answers};
ghost use Rattle.text_file.specs.Filing.{Whole, Filed, bytes_in};

use refusals::Refusal;
use write_pieces::numbers::put_list;

fn width(number: u16) -> usize
    ensures { result ≡ bytes_in number }
{
    if number < 128 { 1 } else { 2 }
}

// How many bytes numbers take.
fn size(numbers: &[u16]) -> usize
    requires { length numbers.now < 4194304 }
    ensures { result ≡ length (each number_bytes numbers.now) }
{
    let mut all = 0;
    for number in numbers {
        all += width(*number);
    }
    all
}

// The check, and then the room in the buffer.
fn deliver(file: &[u8], out: &mut [u8]) -> Result<usize, Refusal>
    requires { Whole file.now }
    ensures { (w : Whole file.now)
        → Answers (if_good (file_verdict w.ms) (fitting (encode w.ms) 0 (length out.old))) out.old out.new result }
{
    call_door::modules(file)?;
    write_order::answer::answer(file, out)
}

// The numbers are those of a file within the ceilings, and the list of bytes is long enough for them or for 65,535.
pub(crate) fn file(numbers: &[u16], bytes: &mut [u8], out: &mut [u8]) -> Result<usize, Refusal>
    requires { Filed numbers.now bytes.old }
    ensures { (f : Filed numbers.now bytes.old)
        → Answers (shelving f.ms (length out.old)) out.old out.new result }
{
    if 65535 < size(numbers) {
        return Err(Refusal {
            number: 1,
            place: 0,
        });
    }
    let end = put_list(numbers, bytes, 0);
    deliver(&bytes[..end], out)
}
