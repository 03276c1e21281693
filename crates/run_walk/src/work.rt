// What a run works out for each net, and how a gate's is worked out from the entries of its arguments.
ghost use Rattle.std.specs.Prelude.{ℕ, ◌≡◌, length};
ghost use Rattle.image.specs.Slots.{Readable, values_at};
ghost use Rattle.run_walk.specs.Work.{Work};

use gates::Rule;

pub trait Work {
    type Entry: Copy;

    ghost work: { Work Self.Entry };

    // At a gate, from the entries at the slots of its arguments.
    fn at_gate(
        rule: Rule,
        image: &[u16],
        from: usize,
        to: usize,
        scratch: &[Self::Entry],
    ) -> Self::Entry
        requires { Readable image.now from to 0 (length scratch.now) }
        ensures { (number : ℕ) → result ≡ work.by_rule number rule (values_at work.none image.now from to 0 scratch.now) };
}
