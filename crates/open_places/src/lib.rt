// Where the modules of a file stand in it: by position the number of each, and where its bytes begin; behind the last, where the file ends. So
// the bytes of a module are the part of the file from its own place to the next. Only reading is asked of the file.
#![tactic(auto)]

ghost use Rattle.open_places.specs.Places.{Headed, Named, Space, Notes};

use refusals::Refusal;

// The number of each module, which is the first of its numbers.
fn name(numbers: &[u16], starts: &[usize], modules: usize, names: &mut [u16])
    requires { Headed numbers.now starts.now modules names.old }
    ensures { (h : Headed numbers.now starts.now modules names.old) → Named h.ms names.new }
{
    for k in 0..modules {
        let start = starts[k];
        names[k] = numbers[start];
    }
}

// Reads a file and notes its modules: how many it has, or the refusal of 1 to 5. The list of numbers is only worked in.
pub fn note(
    file: &[u8],
    numbers: &mut [u16],
    names: &mut [u16],
    places: &mut [usize],
) -> Result<usize, Refusal>
    requires { Space file.now numbers.old names.old places.old }
    ensures { Notes result file.now names.new places.new }
{
    let mut starts = [0usize; 128];
    let modules = read_file::read(file, numbers, &mut starts, places)?.modules;
    name(numbers, &starts, modules, names);
    places[modules] = file.len();
    Ok(modules)
}
