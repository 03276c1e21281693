// The modules of a file, checked and measured from the last to the first: rules 6 to 17, the image, and the figures of each module. A
// module's figures rest on those of later ones. Where several modules break rules the first one counts, so the check goes on behind a
// module that breaks one; rule 17 counts only where no other is broken.
ghost use Rattle.std.specs.Prelude.{List, ◌≤◌};
ghost use Rattle.meaning.specs.Syntax.{Module};
ghost use Rattle.check_steps.specs.Found.{Laidout, EachReady};
ghost use Rattle.check_steps.specs.Going.{FileWalk, end_before, base_of};
ghost use Rattle.check_files.specs.Files.{FileReady, FileFound};

use check_lists::numbering::Numbering;
use refusals::Refusal;

// The modules from position k on, of so many whose numbers are given: the strictly later ones first, on which the room and the expanded
// size of the one at k rest. What was found behind all of them is known.
fn check_from(
    numbers: &mut [u16],
    starts: &[usize],
    modules: usize,
    k: usize,
    found: Result<(), Refusal>,
    numbering: Numbering,
    slots: &mut [u32],
    nets: &mut [usize],
    sizes: &mut [u32],
    rooms: &mut [u32],
) -> Result<(), Refusal>
    requires each_ready { EachReady numbers.old starts.now modules found numbering.first.now numbering.inputs.now numbering.outputs.now slots.old nets.old sizes.old rooms.old }
    requires k_le_modules { k ≤ modules }
    ensures { FileWalk numbers.old starts.now modules found numbering.entry.first.now numbering.entry.inputs.now numbering.entry.outputs.now slots.old nets.old sizes.old rooms.old numbers.new slots.new nets.new sizes.new rooms.new result (end_before starts.now numbers.new modules k) (base_of modules k) k }
{
    if modules <= k {
        return found;
    }
    let behind = check_from(
        numbers,
        starts,
        modules,
        k + 1,
        found,
        numbering,
        slots,
        nets,
        sizes,
        rooms,
    );
    check_steps::steps::check_at(
        numbers, starts, modules, k, behind, numbering, slots, nets, sizes, rooms,
    )
}

// All modules of a file, whose numbers are given; where all is fine its image takes their place. Modules from the first one on whose
// number stands on a later module too need no check: that one breaks rule 6 or 7.
pub fn check_modules(
    numbers: &mut [u16],
    starts: &[usize],
    modules: usize,
    first: &mut [u16],
    slots: &mut [u32],
    names: &mut [u16],
    nets: &mut [usize],
    sizes: &mut [u32],
    rooms: &mut [u32],
) -> Result<(), Refusal>
    requires { FileReady numbers.old starts.now modules first.old slots.old names.old nets.old sizes.old rooms.old }
    ensures { (ms : List Module) → Laidout numbers.old starts.now modules ms → FileFound result ms numbers.new names.new nets.new sizes.new rooms.new }
{
    let mut inputs = [0u16; 128];
    let mut outputs = [0u16; 128];
    let repeated = check_lists::numbering::number_modules(
        numbers,
        starts,
        modules,
        first,
        names,
        &mut inputs,
        &mut outputs,
    );
    let known = check_steps::found::at_repeat(numbers, starts, modules, repeated);
    let end = check_steps::steps::end_before(numbers, starts, modules, repeated);
    check_from(
        &mut numbers[..end],
        starts,
        repeated,
        0,
        known,
        Numbering {
            first,
            inputs: &inputs,
            outputs: &outputs,
        },
        slots,
        nets,
        sizes,
        rooms,
    )
}
