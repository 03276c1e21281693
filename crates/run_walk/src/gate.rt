// What happens at a gate: its value, by its rule.
ghost use Rattle.std.specs.Prelude.{◌+◌, ◌≡◌, map, length};
ghost use Rattle.meaning.specs.Values.{value, code};
ghost use Rattle.gates.specs.Folds.{result_of};
ghost use Rattle.image.specs.Slots.{Readable, values_at};
ghost use Rattle.run_walk.specs.Ruling.{FoldOf, ruled, value_fold, value_not};
ghost use Rattle.run_walk.specs.Valuing.{value_work};

use crate::work::Work;
use gates::Rule;
use gates::folds::{Fold, coded};

// Entries that gates work on: what a fold makes of those at the slots, and the negation of one.
pub trait Folding {
    type Entry: Copy;

    ghost none: { Self.Entry };

    ghost fold_of: { FoldOf Self.Entry };

    ghost opposite: { Self.Entry → Self.Entry };

    fn folded(
        fold: Fold,
        image: &[u16],
        from: usize,
        to: usize,
        scratch: &[Self::Entry],
    ) -> Self::Entry
        requires { Readable image.now from to 0 (length scratch.now) }
        ensures { result ≡ fold_of fold (values_at none image.now from to 0 scratch.now) };

    fn not(entry: Self::Entry) -> Self::Entry
        ensures { result ≡ opposite entry };
}

// What a rule gives to the entries at any number of slots. Each arm names its fold, so that the loop is compiled for each and decides nothing.
pub fn of_many<F: Folding>(
    rule: Rule,
    image: &[u16],
    from: usize,
    to: usize,
    scratch: &[F::Entry],
) -> F::Entry
    requires { Readable image.now from to 0 (length scratch.now) }
    ensures { result ≡ ruled F.fold_of F.opposite rule (values_at F.none image.now from to 0 scratch.now) }
{
    match rule {
        Rule::And => F::folded(Fold::All, image, from, to, scratch),
        Rule::Nand => F::not(F::folded(Fold::All, image, from, to, scratch)),
        Rule::Or => F::folded(Fold::Any, image, from, to, scratch),
        Rule::Nor => F::not(F::folded(Fold::Any, image, from, to, scratch)),
        Rule::Xor => F::folded(Fold::Odd, image, from, to, scratch),
        Rule::Eqv => F::not(F::folded(Fold::Odd, image, from, to, scratch)),
    }
}

// Runs of values, each one of 0, 1 and 2.
pub struct Values;

// From the first of the values on, which saves a step.
impl Folding for Values {
    type Entry = u32;

    ghost none = { 0 };

    ghost fold_of = { value_fold };

    ghost opposite = { value_not };

    fn folded(fold: Fold, image: &[u16], from: usize, to: usize, scratch: &[u32]) -> u32 {
        if to <= from {
            return fold.start();
        }
        let mut v = coded(scratch[image::entry(image, from)]);
        for i in from + 1..to {
            v = fold.step(v, scratch[image::entry(image, i)]);
        }
        v
    }

    fn not(entry: u32) -> u32 {
        gates::folds::not(entry)
    }
}

// What it gives to those at two slots.
fn of_two(rule: Rule, image: &[u16], from: usize, to: usize, scratch: &[u32]) -> u32
    requires { Readable image.now from to 0 (length scratch.now) × (to ≡ from + 2) }
    ensures { result ≡ code (result_of rule (map value (values_at 0 image.now from to 0 scratch.now))) }
{
    let a = scratch[image::entry(image, from)];
    let b = scratch[image::entry(image, from + 1)];
    gates::pairs::result(rule, a, b)
}

impl Work for Values {
    type Entry = u32;

    ghost work = { value_work };

    fn at_gate(rule: Rule, image: &[u16], from: usize, to: usize, scratch: &[u32]) -> u32 {
        result(rule, image, from, to, scratch)
    }
}

// What a rule gives to the values at the slots. Most gates have two.
pub fn result(rule: Rule, image: &[u16], from: usize, to: usize, scratch: &[u32]) -> u32
    requires { Readable image.now from to 0 (length scratch.now) }
    ensures { result ≡ code (result_of rule (map value (values_at 0 image.now from to 0 scratch.now))) }
{
    if to - from == 2 {
        return of_two(rule, image, from, to, scratch);
    }
    of_many::<Values>(rule, image, from, to, scratch)
}
