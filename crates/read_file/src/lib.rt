// Reads a file: its bytes once, front to back, into a lent list of numbers, one entry for each number of the file. Where each
// module begins is noted in two more lists, in numbers and in bytes.
#![tactic(auto)]

ghost use Rattle.std.specs.Prelude.{◌≤◌, length};
ghost use Rattle.meaning.specs.Reading.{most_modules};
ghost use Rattle.read_file.specs.Answer.{Room, Decoded};
ghost use Rattle.read_file.specs.Noted.{Fit, Passed, Through};
ghost use Rattle.read_parts.specs.Steps.{Stands};

use read_parts::parts::keep_module;
use read_parts::way::{Spot, keep_count, last_kept};
use refusals::Refusal;

// How many modules and how many numbers a file has that reads.
#[derive(Clone, Copy, PartialEq, Eq, Debug)]
pub struct Extent {
    pub modules: usize,
    pub numbers: usize,
}

// So many modules. Where each begins is noted, in numbers and in bytes.
fn keep_modules(
    spot: Spot,
    count: usize,
    bytes: &[u8],
    numbers: &mut [u16],
    starts: &mut [usize],
    offsets: &mut [usize],
) -> Result<Spot, Refusal>
    requires stands { Stands bytes.now spot numbers.old }
    requires fit { Fit count starts.old offsets.old }
    ensures { Passed bytes.now spot count numbers.old numbers.new starts.old starts.new offsets.old offsets.new result }
{
    let mut spot = spot;
    for i in 0..count {
        starts[i] = spot.filled;
        offsets[i] = spot.place;
        spot = keep_module(spot, bytes, numbers)?;
    }
    Ok(spot)
}

// The count of modules, and as many modules.
fn keep_file(
    bytes: &[u8],
    numbers: &mut [u16],
    starts: &mut [usize],
    offsets: &mut [usize],
) -> Result<Spot, Refusal>
    requires bytes_in_bounds { length bytes.now ≤ length numbers.old }
    requires fit { Fit most_modules starts.old offsets.old }
    ensures { Through bytes.now numbers.old numbers.new starts.old starts.new offsets.old offsets.new result }
{
    let first = Spot {
        place: 0,
        filled: 0,
    };
    let spot = keep_count(first, 128, bytes, numbers)?;
    let count = last_kept(spot, numbers) as usize;
    keep_modules(spot, count, bytes, numbers, starts, offsets)
}

// Reads a file. It reads, or there is the refusal of 1 to 5.
pub fn read(
    bytes: &[u8],
    numbers: &mut [u16],
    starts: &mut [usize],
    offsets: &mut [usize],
) -> Result<Extent, Refusal>
    requires { Room bytes.now numbers.old starts.old offsets.old }
    ensures { Decoded bytes.now numbers.old numbers.new starts.old starts.new offsets.old offsets.new result }
{
    if 65535 < bytes.len() {
        return Err(Refusal::at(1, 0));
    }
    let end = keep_file(bytes, numbers, starts, offsets)?;
    if end.place < bytes.len() {
        return Err(Refusal::at(5, end.place));
    }
    Ok(Extent {
        modules: numbers[0] as usize,
        numbers: end.filled,
    })
}
