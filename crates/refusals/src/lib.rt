// A refusal: what a file or a call breaks, and where.
#![tactic(auto)]

ghost use Rattle.std.specs.Prelude.{◌≡◌};
ghost use Rattle.refusals.specs.Refused.{refusal_at};

// The number of the rule that is broken, as the documents and the C header count them, and the place that the rule names: of a byte, a
// module or a value, or 0. The number is the rule's name everywhere outside too, so it has no second one here.
#[derive(Clone, Copy, PartialEq, Eq, Debug)]
pub struct Refusal {
    pub number: u16,
    pub place: usize,
}

impl Refusal {
    pub fn at(number: u16, place: usize) -> Self
        ensures { result ≡ refusal_at number place }
    {
        Self { number, place }
    }
}
