// Rules 11 to 14 for one occurrence, which becomes its part of the image, and what its reference adds to the module's sums.
ghost use Rattle.check_bodies.specs.Occurrences.{StepReady, Stepped};

use check_lists::numbering::Numbering;
use check_lists::references::Reference;
use check_sizes::{Figures, Sums};

// How far a walk over occurrences that are fine has come: the place behind them, the count of nets and the sums over their references.
#[derive(Clone, Copy, PartialEq, Eq, Debug)]
pub struct Walked {
    pub next: usize,
    pub nets: usize,
    pub sums: Sums,
}

// The occurrence behind those that are walked: how far the walk has come with it, or the rule that it breaks. Each of its lists is passed over once: what is asked of its nets, what
// the table learns of them and what takes their places go together, and the place behind the list follows from the pass. The nets that it
// drives are learnt first; those that it takes must have been known before, so they are asked for below the slots of those.
pub fn check_occurrence(
    numbers: &mut [u16],
    walked: Walked,
    k: usize,
    numbering: Numbering,
    slots: &mut [u32],
    base: u32,
    figures: Figures,
) -> Result<Walked, u16>
    requires { StepReady numbers.old numbering.first.now numbering.inputs.now numbering.outputs.now slots.old base k walked.next walked.nets figures.sizes.now figures.rooms.now walked.sums }
    ensures { Stepped numbers.old numbering.entry.first.now numbering.entry.inputs.now numbering.entry.outputs.now slots.old base k walked.next walked.nets figures.entry.sizes.now figures.entry.rooms.now walked.sums numbers.new slots.new result }
{
    let Walked {
        next: at,
        nets: filled,
        sums,
    } = walked;
    let driven = image::entry(numbers, at);
    let learnt = check_lists::lists::learn_list(numbers, at, slots, base, filled as u32);
    if learnt < driven {
        return Err(11);
    }
    let r = at + 1 + learnt;
    let t = r + 1;
    let taken = image::entry(numbers, t);
    let written = check_lists::lists::write_list(numbers, t, slots, base, filled as u32);
    if written < taken {
        return Err(12);
    }
    let next = t + 1 + written;
    let nets = filled + driven;
    match check_lists::references::judge_reference(numbers[r], taken, driven, k, numbering)? {
        Reference::Gate => Ok(Walked {
            next,
            nets,
            sums: sums.with_gate(),
        }),
        Reference::Module(j) => {
            numbers[r] = (16 + j) as u16;
            Ok(Walked {
                next,
                nets,
                sums: sums.with_module(j, figures),
            })
        }
    }
}
