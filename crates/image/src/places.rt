// Where the parts of a module and of an occurrence stand in the image.
ghost use Rattle.std.specs.Prelude.{◌<◌, length, get_or};
ghost use Rattle.meaning.specs.Syntax.{Occurrence, Module};
ghost use Rattle.meaning.specs.Layout.{occurrence_numbers, module_numbers};
ghost use Rattle.image.specs.Stands.{Stands};
ghost use Rattle.image.specs.Places.{ModuleThere, HeaderOf, Headed, OccurrenceThere, PlaceOf};

use crate::Image;

// Of a module: how many inputs it has, the places of its outputs, and how many occurrences it has. Their count is at `to`, and the
// occurrences stand behind it.
#[derive(Clone, Copy, PartialEq, Eq, Debug)]
pub struct Header {
    pub inputs: usize,
    pub from: usize,
    pub to: usize,
    pub count: usize,
}

pub fn module_at(image: &[u16], at: usize) -> Header
    requires { ModuleThere image.now at }
    ensures { (m : Module) → Stands image.now at (module_numbers m) → HeaderOf image.now at m result }
{
    let inputs = crate::entry(image, at + 1);
    let from = at + 3 + inputs;
    let to = from + crate::entry(image, from - 1);
    let count = crate::entry(image, to);
    Header {
        inputs,
        from,
        to,
        count,
    }
}

impl<'a> Image<'a> {
    // The header of the module at position k.
    pub fn module(self, k: usize) -> Header
        requires starts_in_bounds { k < length self.starts.now }
        requires module_there { ModuleThere self.numbers.now (get_or self.starts.now k 0) }
        ensures { Headed self.entry.numbers.now (get_or self.entry.starts.now k 0) result }
    {
        module_at(self.numbers, self.starts[k])
    }
}

// Of an occurrence: how many nets it drives, the number that it refers to, and the places of its arguments. The nets that it drives end
// two places before `from`, and the next occurrence stands at `to`.
#[derive(Clone, Copy, PartialEq, Eq, Debug)]
pub struct Place {
    pub drives: usize,
    pub refers: u16,
    pub from: usize,
    pub to: usize,
}

pub fn occurrence_at(image: &[u16], at: usize) -> Place
    requires { OccurrenceThere image.now at }
    ensures { (o : Occurrence) → Stands image.now at (occurrence_numbers o) → PlaceOf image.now at o result }
{
    // Most drive one net and take two. A processor foresees these two branches, and then waits for no count to find the next occurrence.
    if crate::entry(image, at) != 1 {
        return by_counts(image, at);
    }
    if crate::entry(image, at + 3) != 2 {
        return by_counts(image, at);
    }
    Place {
        drives: 1,
        refers: image[at + 2],
        from: at + 4,
        to: at + 6,
    }
}

// The same by adding up what is read.
fn by_counts(image: &[u16], at: usize) -> Place
    requires { OccurrenceThere image.now at }
    ensures { (o : Occurrence) → Stands image.now at (occurrence_numbers o) → PlaceOf image.now at o result }
{
    let drives = crate::entry(image, at);
    let r = at + 1 + drives;
    let from = r + 2;
    let to = from + crate::entry(image, r + 1);
    Place {
        drives,
        refers: image[r],
        from,
        to,
    }
}
