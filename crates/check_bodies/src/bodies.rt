// The occurrences of a module in order.
ghost use Rattle.check_bodies.specs.Bodies.{BodyReady, BodyChecked};

use crate::occurrences::Walked;
use check_lists::numbering::Numbering;
use check_sizes::{Figures, Sums};

// All occurrences of the module at position k, whose inputs are `width` nets: each checked, and made its part of the image where it is
// fine. A function of its own, so that its loop has the registers to itself.
#[inline(never)]
pub fn check_body(
    numbers: &mut [u16],
    from: usize,
    count: usize,
    k: usize,
    numbering: Numbering,
    slots: &mut [u32],
    base: u32,
    width: usize,
    figures: Figures,
) -> Result<Walked, u16>
    requires { BodyReady numbers.old numbering.first.now numbering.inputs.now numbering.outputs.now slots.old base k from count width figures.sizes.now figures.rooms.now }
    ensures { BodyChecked numbers.old numbering.entry.first.now numbering.entry.inputs.now numbering.entry.outputs.now slots.old base k from count width figures.entry.sizes.now figures.entry.rooms.now numbers.new slots.new result }
{
    let mut walked = Walked {
        next: from,
        nets: width,
        sums: Sums::nothing(),
    };
    for _ in 0..count {
        walked = crate::occurrences::check_occurrence(
            numbers, walked, k, numbering, slots, base, figures,
        )?;
    }
    Ok(walked)
}
