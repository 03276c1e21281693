// Occurrence after occurrence of a module.
ghost use Rattle.std.specs.Prelude.{◌≡◌, List, [], ◌++◌, ℕ, ◌+◌, ◌≤◌, ◌<◌, ◌^◌, length, drop};
ghost use Rattle.meaning.specs.Syntax.{Occurrence};
ghost use Rattle.meaning.specs.Layout.{occurrence_numbers};
ghost use Rattle.image.specs.Stands.{Stands};
ghost use Rattle.image.specs.Places.{OccurrenceThere};
ghost use Rattle.fault_parts.specs.Asked.{Placed, Marked};
ghost use Rattle.text_faults.specs.Faults.{entry_at_fault, entries, fault_in, first_fault, fault_at};
ghost use Rattle.text_faults.specs.Body.{Body};

use crate::Fault;
use fault_parts::marks::{count_known, learn, mark_all};
use fault_parts::modules::{FileModules, fits};
use image::places::{module_at, occurrence_at};

// By the counts of an occurrence: 11 where not all nets that it drives are new, 12 where not all arguments are known, else 13 and 14.
fn entry_at_fault(new: usize, driven: usize, known: usize, taken: usize, fit: bool) -> usize
    requires { driven + 1 + taken < 2 ^ 64 }
    ensures { result ≡ entry_at_fault new driven known taken fit }
{
    if new < driven {
        return new;
    }
    if known < taken {
        return driven + 1 + known;
    }
    if fit {
        return driven + 1 + taken;
    }
    driven
}

// How many entries of the occurrence at a place stand in front of the one at fault; all of them, if none is, and then the nets that it drives
// are known too. Its arguments are looked at first: what it drives itself is not known to them.
fn fault_in(file: FileModules, from: usize, at: usize, marks: &mut [u8]) -> usize
    requires placed { Placed file.numbers.now file.starts.now file.count }
    requires from_le_modules { from ≤ file.count }
    requires occurrence_there { OccurrenceThere file.numbers.now at }
    requires in_bounds { 65536 ≤ length marks.old }
    ensures { (p : Placed file.entry.numbers.now file.entry.starts.now file.entry.count) (o : Occurrence) (known : List ℕ)
        → Stands file.entry.numbers.now at (occurrence_numbers o) → Marked marks.old known
        → (result ≡ fault_in o known (drop from p.ms)) × (entries o ≤ result → Marked marks.new (o.drives ++ known)) }
{
    let o = occurrence_at(file.numbers, at);
    let first = o.from;
    let last = o.to;
    let known = count_known(&file.numbers[first..last], marks);
    let driven = at + 1;
    let behind = driven + o.drives;
    let new = learn(&file.numbers[driven..behind], marks);
    let taken = last - first;
    let fit = fits(file, from, o.refers, taken, o.drives);
    entry_at_fault(new, o.drives, known, taken, fit)
}

// Among so many occurrences that stand from a place on.
fn walk(file: FileModules, from: usize, body: usize, count: usize, marks: &mut [u8]) -> Fault
    requires placed { Placed file.numbers.now file.starts.now file.count }
    requires from_le_modules { from ≤ file.count }
    requires body { Body file.numbers.now marks.old body count }
    requires in_bounds { 65536 ≤ length marks.old }
    ensures { (p : Placed file.entry.numbers.now file.entry.starts.now file.entry.count) (b : Body file.entry.numbers.now marks.old body count)
        → result ≡ first_fault 0 b.os b.known (drop from p.ms) }
{
    let mut at = body;
    for i in 0..count {
        let o = occurrence_at(file.numbers, at);
        let atom = fault_in(file, from, at, marks);
        if atom < o.drives + 1 + (o.to - o.from) {
            return Fault {
                occurrence: i,
                driven: o.drives,
                atom,
            };
        }
        at = o.to;
    }
    Fault {
        occurrence: count,
        driven: 0,
        atom: 0,
    }
}

// In the module at a position. The marks are all 0.
pub fn first_fault(file: FileModules, position: usize, marks: &mut [u8]) -> Fault
    requires placed { Placed file.numbers.now file.starts.now file.count }
    requires position_lt_modules { position < file.count }
    requires in_bounds { 65536 ≤ length marks.old }
    requires marked { Marked marks.old [] }
    ensures { (p : Placed file.entry.numbers.now file.entry.starts.now file.entry.count) → result ≡ fault_at (drop position p.ms) }
{
    let start = file.starts[position];
    let header = module_at(file.numbers, start);
    let inputs = start + 2;
    let end = inputs + header.inputs;
    mark_all(&file.numbers[inputs..end], marks);
    walk(file, position + 1, header.to + 1, header.count, marks)
}
