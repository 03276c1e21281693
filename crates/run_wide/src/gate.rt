// What happens at a gate, for all rows at once.
ghost use Rattle.std.specs.Prelude.{[]};
ghost use Rattle.lanes.specs.Entries.{not_of};
ghost use Rattle.run_wide.specs.Wide.{rows_fold, rows_work};

use gates::Rule;
use gates::folds::Fold;
use run_walk::gate::Folding;
use run_walk::work::Work;

// Runs of 256 rows.
pub struct Rows;

impl Folding for Rows {
    type Entry = [u64; 8];

    ghost none = { [] };

    ghost fold_of = { rows_fold };

    ghost opposite = { not_of };

    fn folded(fold: Fold, image: &[u16], from: usize, to: usize, scratch: &[[u64; 8]]) -> [u64; 8] {
        let mut v = lanes::entry::start(fold);
        for i in from..to {
            let next = lanes::entry::step(fold, v, scratch[image::entry(image, i)]);
            v = next;
        }
        v
    }

    fn not(entry: [u64; 8]) -> [u64; 8] {
        lanes::entry::not(entry)
    }
}

impl Work for Rows {
    type Entry = [u64; 8];

    ghost work = { rows_work };

    fn at_gate(
        rule: Rule,
        image: &[u16],
        from: usize,
        to: usize,
        scratch: &[[u64; 8]],
    ) -> [u64; 8] {
        run_walk::gate::of_many::<Rows>(rule, image, from, to, scratch)
    }
}
