// Where the modules of a file stand in its numbers, and whether the counts of an occurrence fit what it refers to.
ghost use Rattle.std.specs.Prelude.{◌≡◌, List, ℕ, ◌+◌, ◌≤◌, length, drop};
ghost use Rattle.meaning.specs.Syntax.{Module};
ghost use Rattle.meaning.specs.Layout.{module_numbers};
ghost use Rattle.meaning.specs.Boxlist.{assoc, arity_okp, submodule_okp};
ghost use Rattle.image.specs.Stands.{Stands};
ghost use Rattle.image.specs.Places.{ModuleThere};
ghost use Rattle.check_lists.specs.Filed.{Filed};
ghost use Rattle.fault_parts.specs.Asked.{Whole, Placed, Finds};

use gates::Kind;
use image::places::{module_at, occurrence_at};

// The numbers of a file, with the places where its modules begin and how many these are.
#[derive(Clone, Copy)]
pub struct FileModules<'a> {
    pub numbers: &'a [u16],
    pub starts: &'a [usize],
    pub count: usize,
}

// The place behind a module.
fn module_end(numbers: &[u16], from: usize) -> usize
    requires { ModuleThere numbers.now from }
    ensures { (m : Module) → Stands numbers.now from (module_numbers m) → result ≡ from + length (module_numbers m) }
{
    let header = module_at(numbers, from);
    let mut at = header.to + 1;
    for _ in 0..header.count {
        at = occurrence_at(numbers, at).to;
    }
    at
}

// The place of each.
pub fn place_modules(numbers: &[u16], modules: usize, starts: &mut [usize])
    requires modules_value { (w : Whole numbers.now) → (modules ≡ length w.ms) × (modules ≤ length starts.old) }
    requires whole { Whole numbers.now }
    ensures { (w : Whole numbers.now) → Filed numbers.now starts.new w.ms }
{
    let mut at = 1;
    for k in 0..modules {
        starts[k] = at;
        at = module_end(numbers, at);
    }
}

// The position of the first module from one on that has a number.
fn find(file: FileModules, from: usize, number: u16) -> Option<usize>
    requires placed { Placed file.numbers.now file.starts.now file.count }
    requires from_le_modules { from ≤ file.count }
    ensures { (p : Placed file.entry.numbers.now file.entry.starts.now file.entry.count) → Finds p.ms (assoc number (drop from p.ms)) result }
{
    for j in from..file.count {
        let start = file.starts[j];
        if file.numbers[start] == number {
            return Some(j);
        }
    }
    None
}

fn fits_module(file: FileModules, from: usize, number: u16, taken: usize, driven: usize) -> bool
    requires placed { Placed file.numbers.now file.starts.now file.count }
    requires from_le_modules { from ≤ file.count }
    ensures { (p : Placed file.entry.numbers.now file.entry.starts.now file.entry.count) (takes drives : List ℕ) → taken ≡ length takes → driven ≡ length drives
        → result ≡ submodule_okp (assoc number (drop from p.ms)) takes drives }
{
    let Some(j) = find(file, from, number) else {
        return false;
    };
    let header = module_at(file.numbers, file.starts[j]);
    if taken != header.inputs {
        return false;
    }
    driven == header.to - header.from
}

// Rules 13 and 14: whether what an occurrence refers to is a gate or a module from a position on, and its counts fit.
pub fn fits(file: FileModules, from: usize, number: u16, taken: usize, driven: usize) -> bool
    requires placed { Placed file.numbers.now file.starts.now file.count }
    requires from_le_modules { from ≤ file.count }
    ensures { (p : Placed file.entry.numbers.now file.entry.starts.now file.entry.count) (takes drives : List ℕ) → taken ≡ length takes → driven ≡ length drives
        → result ≡ arity_okp number takes drives (drop from p.ms) }
{
    match gates::kind_of(number) {
        Kind::Gate(_, arity) => {
            if arity != taken {
                return false;
            }
            1 == driven
        }
        Kind::Module => fits_module(file, from, number, taken, driven),
    }
}
