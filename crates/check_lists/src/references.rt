// Rules 13 and 14: what an occurrence refers to.
ghost use Rattle.std.specs.Prelude.{◌≡◌, List, false, ℕ, ◌+◌, ◌<◌, length};
ghost use Rattle.meaning.specs.Syntax.{Module};
ghost use Rattle.meaning.specs.Gates.{is_gate};
ghost use Rattle.check_lists.specs.Numbering.{Numbered, Ported, first_repeat, Referable};
ghost use Rattle.check_lists.specs.References.{reference_of};

use crate::numbering::Numbering;
use gates::Kind;

// What a reference that breaks no rule means: a gate, or the module at a position.
#[derive(Clone, Copy, PartialEq, Eq, Debug)]
pub enum Reference {
    Gate,
    Module(usize),
}

// A number from 16 up: the nearest later module that has it, with its counts of inputs and outputs; or the rule that is broken.
fn judge_module(
    number: u16,
    taken: usize,
    driven: usize,
    k: usize,
    numbering: Numbering,
) -> Result<Reference, u16>
    requires referable { Referable numbering.first.now numbering.inputs.now numbering.outputs.now k number }
    requires number_value { is_gate number ≡ false }
    ensures { (ms : List Module) (takes drives : List ℕ) → Numbered numbering.entry.first.now ms → Ported numbering.entry.inputs.now numbering.entry.outputs.now ms → k < first_repeat ms → taken ≡ length takes → driven ≡ length drives → result ≡ reference_of ms k number takes drives }
{
    let place = image::entry(numbering.first, number as usize);
    if place <= k + 1 {
        return Err(13);
    }
    if taken != image::entry(numbering.inputs, place - 1) {
        return Err(14);
    }
    if driven != image::entry(numbering.outputs, place - 1) {
        return Err(14);
    }
    Ok(Reference::Module(place - 1))
}

// What a reference in the module at position k comes to, or the rule that it breaks.
pub fn judge_reference(
    number: u16,
    taken: usize,
    driven: usize,
    k: usize,
    numbering: Numbering,
) -> Result<Reference, u16>
    requires { Referable numbering.first.now numbering.inputs.now numbering.outputs.now k number }
    ensures { (ms : List Module) (takes drives : List ℕ) → Numbered numbering.entry.first.now ms → Ported numbering.entry.inputs.now numbering.entry.outputs.now ms → k < first_repeat ms → taken ≡ length takes → driven ≡ length drives → result ≡ reference_of ms k number takes drives }
{
    match gates::kind_of(number) {
        Kind::Gate(_, arity) => {
            if taken != arity {
                return Err(14);
            }
            if driven != 1 {
                return Err(14);
            }
            Ok(Reference::Gate)
        }
        Kind::Module => judge_module(number, taken, driven, k, numbering),
    }
}
