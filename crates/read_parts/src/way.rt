// The way through a file: where reading stands, and one number more laid out there. Each step hands back where it has led or the
// refusal: so a loop carries no more than where reading stands.
ghost use Rattle.std.specs.Prelude.{◌≡◌};
ghost use Rattle.meaning.specs.Reading.{read_number, read_count};
ghost use Rattle.read_parts.specs.Steps.{Stands, Takes, Some, last_of};

use crate::number::read_number;
use refusals::Refusal;

// Where reading stands: at which place of the file, and how many numbers are laid out by then.
#[derive(Clone, Copy, PartialEq, Eq, Debug)]
pub struct Spot {
    pub place: usize,
    pub filled: usize,
}

// A count, laid out unless it is over its ceiling.
pub fn keep_count(
    spot: Spot,
    ceiling: u16,
    bytes: &[u8],
    numbers: &mut [u16],
) -> Result<Spot, Refusal>
    requires { Stands bytes.now spot numbers.old }
    ensures { Takes (read_count ceiling) bytes.now spot numbers.old numbers.new result }
{
    let count = read_number(bytes, spot.place)?;
    if ceiling < count.value {
        return Err(Refusal::at(4, spot.place));
    }
    numbers[spot.filled] = count.value;
    Ok(Spot {
        place: count.next,
        filled: spot.filled + 1,
    })
}

// A number, laid out. None is above 16,383, so that ceiling refuses none.
pub fn keep_number(spot: Spot, bytes: &[u8], numbers: &mut [u16]) -> Result<Spot, Refusal>
    requires { Stands bytes.now spot numbers.old }
    ensures { Takes read_number bytes.now spot numbers.old numbers.new result }
{
    keep_count(spot, 16383, bytes, numbers)
}

// The number that was laid out last.
pub fn last_kept(spot: Spot, numbers: &[u16]) -> u16
    requires { Some spot numbers.now }
    ensures { result ≡ last_of spot numbers.now }
{
    numbers[spot.filled - 1]
}
