// One module's turn in the check of a file.
ghost use Rattle.std.specs.Prelude.{◌≡◌, ◌≤◌, length};
ghost use Rattle.check_steps.specs.Going.{Reached, Gone, end_before};

use check_lists::numbering::Numbering;
use check_modules::modules::Measured;
use check_sizes::Figures;
use refusals::Refusal;

// Where the modules in front of position k end, of so many: where the one at k starts, or behind the last.
pub fn end_before(numbers: &[u16], starts: &[usize], modules: usize, k: usize) -> usize
    requires { modules ≤ length starts.now }
    ensures { result ≡ end_before starts.now numbers.now modules k }
{
    if k < modules {
        starts[k]
    } else {
        numbers.len()
    }
}

// The module at position k, of so many: it is checked, and its figures join those of the later ones, of which it is known what was found.
pub fn check_at(
    numbers: &mut [u16],
    starts: &[usize],
    modules: usize,
    k: usize,
    found: Result<(), Refusal>,
    numbering: Numbering,
    slots: &mut [u32],
    nets: &mut [usize],
    sizes: &mut [u32],
    rooms: &mut [u32],
) -> Result<(), Refusal>
    requires { Reached numbers.old starts.now modules k found numbering.first.now numbering.inputs.now numbering.outputs.now slots.old nets.old sizes.old rooms.old }
    ensures { (b : Reached numbers.old starts.now modules k found numbering.entry.first.now numbering.entry.inputs.now numbering.entry.outputs.now slots.old nets.old sizes.old rooms.old)
        → Gone b numbers.new slots.new nets.new sizes.new rooms.new result }
{
    let start = starts[k];
    let end = end_before(numbers, starts, modules, k + 1);
    let base = 65536 * (modules - k) as u32;
    match check_modules::modules::check_module(
        &mut numbers[start..end],
        k,
        numbering,
        slots,
        base,
        Figures { sizes, rooms },
    ) {
        Err(rule) => Err(Refusal::at(rule, k)),
        Ok(Measured { nets: own, sums }) => {
            nets[k] = own;
            if check_sizes::keep(own, sums, k, sizes, rooms) {
                found
            } else {
                crate::found::over(found, k)
            }
        }
    }
}
