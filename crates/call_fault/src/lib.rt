// What is at fault in a module of a text that was refused with 11 to 14. The text is read once more, in lists of the call's own.
#![tactic(auto)]

ghost use Rattle.std.specs.Prelude.{◌≡◌, ◌≤◌, length, drop};
ghost use Rattle.meaning.specs.ListCall.{reading};
ghost use Rattle.text_reader.specs.Reading.{Reads};
ghost use Rattle.fault_parts.specs.Asked.{Whole};
ghost use Rattle.text_faults.specs.Faults.{no_fault, fault_at, fault_of, text_fault};

use call_text::read_long;
use fault_parts::modules::{FileModules, place_modules};
use refusals::Refusal;
use text_faults::{Fault, first_fault};

fn none() -> Fault
    ensures { result ≡ no_fault 0 }
{
    Fault {
        occurrence: 0,
        driven: 0,
        atom: 0,
    }
}

// In the module at a position of a file.
fn in_numbers(numbers: &[u16], position: usize) -> Fault
    requires { Whole numbers.now }
    ensures { (w : Whole numbers.now) → result ≡ fault_at (drop position w.ms) }
{
    let modules = image::entry(numbers, 0);
    if modules <= position {
        return none();
    }
    let mut starts = [0usize; 128];
    place_modules(numbers, modules, &mut starts);
    let mut marks = [0u8; 65536];
    let file = FileModules {
        numbers,
        starts: &starts,
        count: modules,
    };
    first_fault(file, position, &mut marks)
}

fn after_reading(
    text: &[u8],
    read: Result<usize, Refusal>,
    numbers: &[u16],
    position: usize,
) -> Fault
    requires { Reads text.now numbers.now read }
    ensures { result ≡ fault_of (reading text.now) position }
{
    let Ok(count) = read else {
        return none();
    };
    in_numbers(&numbers[..count], position)
}

// In lists that are long enough for every text: a text is read so once after a refusal, and there are no short ones.
fn of_listed(text: &[u8], position: usize) -> Fault
    requires { length text.now ≤ 262144 }
    ensures { result ≡ fault_of (reading text.now) position }
{
    let mut numbers = [0u16; 524290];
    let read = read_long(text, &mut numbers);
    after_reading(text, read, &numbers, position)
}

// Of any text, at any position.
pub fn of(text: &[u8], position: usize) -> Fault
    ensures { result ≡ text_fault text.now position }
{
    if 262144 < text.len() {
        return none();
    }
    of_listed(text, position)
}
