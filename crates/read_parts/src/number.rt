// The number that stands at a place of a file.
ghost use Rattle.std.specs.Prelude.{◌≡◌, drop};
ghost use Rattle.meaning.specs.Reading.{read_number};
ghost use Rattle.read_parts.specs.Steps.{number_read};

use refusals::Refusal;

// A number that stands in a file, and the place behind it.
#[derive(Clone, Copy, PartialEq, Eq, Debug)]
pub struct Spelled {
    pub value: u16,
    pub next: usize,
}

// One number: a byte below 128, or two bytes, of which the second is 1 to 127.
pub fn read_number(bytes: &[u8], at: usize) -> Result<Spelled, Refusal>
    ensures { result ≡ number_read (read_number at (drop at bytes.now)) }
{
    if bytes.len() <= at {
        return Err(Refusal::at(2, at));
    }
    let first = bytes[at];
    if first < 128 {
        return Ok(Spelled {
            value: first as u16,
            next: at + 1,
        });
    }
    if bytes.len() <= at + 1 {
        return Err(Refusal::at(2, at + 1));
    }
    let second = bytes[at + 1];
    if second == 0 || 128 <= second {
        return Err(Refusal::at(3, at));
    }
    Ok(Spelled {
        value: (first - 128) as u16 + 128 * (second as u16),
        next: at + 2,
    })
}
