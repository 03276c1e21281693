// The tables that find a module by its number, and tell its number and its counts of inputs and outputs by its position.
ghost use Rattle.std.specs.Prelude.{◌≡◌, List, length};
ghost use Rattle.meaning.specs.Syntax.{Module};
ghost use Rattle.check_lists.specs.Filed.{Filed, Countable};
ghost use Rattle.check_lists.specs.Numbering.{Entered};

// The tables once they are filled: for each number one more than the position of the first module that has it, 0 for none; and for each
// position the counts of inputs and outputs.
#[derive(Clone, Copy)]
pub struct Numbering<'a> {
    pub first: &'a [u16],
    pub inputs: &'a [u16],
    pub outputs: &'a [u16],
}

// Fills the tables, from the last module to the first, and answers the first position whose number stands on a later module too.
pub fn number_modules(
    numbers: &[u16],
    starts: &[usize],
    modules: usize,
    first: &mut [u16],
    names: &mut [u16],
    inputs: &mut [u16],
    outputs: &mut [u16],
) -> usize
    requires { Countable numbers.now starts.now modules first.old names.old inputs.old outputs.old }
    ensures { (ms : List Module) → Filed numbers.now starts.now ms → modules ≡ length ms → Entered ms first.new names.new inputs.new outputs.new result }
{
    let mut repeated = modules;
    for k in (0..modules).rev() {
        let s = starts[k];
        let x = image::entry(numbers, s);
        if first[x] != 0 {
            repeated = k;
        }
        first[x] = (k + 1) as u16;
        names[k] = numbers[s];
        inputs[k] = numbers[s + 1];
        outputs[k] = numbers[crate::lists::list_end(numbers, s + 1)];
    }
    repeated
}
