// A module: rules 6 and 8 to 16 in order, and its image. That no later module has its number, rule 7, is known before.
ghost use Rattle.check_modules.specs.Heads.{HeadWritable};
ghost use Rattle.check_modules.specs.Modules.{Ended, ModuleReady, ModuleChecked};

use check_lists::numbering::Numbering;
use check_sizes::{Figures, Sums};

// What is measured of a module that breaks no rule: its count of nets and the sums over its references.
#[derive(Clone, Copy, PartialEq, Eq, Debug)]
pub struct Measured {
    pub nets: usize,
    pub sums: Sums,
}

// The head's part of the image, and rules 15 and 16, once all occurrences are fine; or the one that is broken first.
fn finish_module(
    numbers: &mut [u16],
    k: usize,
    nets: usize,
    slots: &[u32],
    base: u32,
) -> Result<(), u16>
    requires { HeadWritable numbers.old slots.now base k nets }
    ensures { Ended numbers.old slots.now base k nets numbers.new result }
{
    if !crate::heads::write_head(numbers, k, slots, base, nets as u32) {
        return Err(15);
    }
    if 4096 < nets {
        return Err(16);
    }
    Ok(())
}

// The module at position k, whose numbers are given: what is measured of it, or the rule that it breaks. Where it is fine its image takes
// their place. Each module has a base of its own, so
// the table of slots need not be cleared.
pub fn check_module(
    numbers: &mut [u16],
    k: usize,
    numbering: Numbering,
    slots: &mut [u32],
    base: u32,
    figures: Figures,
) -> Result<Measured, u16>
    requires { ModuleReady numbers.old k numbering.first.now numbering.inputs.now numbering.outputs.now slots.old base figures.sizes.now figures.rooms.now }
    ensures { ModuleChecked numbers.old k numbering.entry.first.now numbering.entry.inputs.now numbering.entry.outputs.now base figures.entry.sizes.now figures.entry.rooms.now numbers.new slots.new result }
{
    crate::heads::judge_head(numbers, slots, base)?;
    let width = image::entry(numbers, 1);
    let n = check_lists::lists::list_end(numbers, 1);
    let e = check_lists::lists::list_end(numbers, n);
    let count = image::entry(numbers, e);
    let walked = check_bodies::bodies::check_body(
        numbers,
        e + 1,
        count,
        k,
        numbering,
        slots,
        base,
        width,
        figures,
    )?;
    finish_module(numbers, k, walked.nets, slots, base)?;
    Ok(Measured {
        nets: walked.nets,
        sums: walked.sums,
    })
}
