// A module and its list of occurrences, evaluated through each other, as `run_walk::walk` has it: what happens at a gate differs, and that
// there are two lists of entries. So it is no instance of that walk, which works in one: the unit arrivals stand in the lent scratch and the
// family's in another list, and entries that hold both would need a third.
ghost use Rattle.meaning.specs.Family.{delay_in};
ghost use Rattle.run_walk.specs.Running.{Runnable, Walkable, Ran};
ghost use Rattle.run_times.specs.Times.{one_each, times_work};

use families::Family;
use gates::Kind;
use image::Image;
use image::places::Header;

// The module at position k. The arrivals of its inputs stand at the front of both lists, and then those of its whole frame do.
#[cycle(run_module_walk)]
pub fn run_module(
    family: Family,
    image: &Image<'_>,
    k: usize,
    units: &mut [u32],
    others: &mut [u32],
)
    requires runnable { Runnable image.now.numbers.now image.now.starts.now image.now.nets.now k units.old }
    requires runnable_2 { Runnable image.now.numbers.now image.now.starts.now image.now.nets.now k others.old }
    ensures unit { (s : Runnable image.now.numbers.now image.now.starts.now image.now.nets.now k units.old)
        → Ran (times_work one_each) s.scene.m s.scene.later units.old units.new }
    ensures family { (s : Runnable image.now.numbers.now image.now.starts.now image.now.nets.now k others.old)
        → Ran (times_work (delay_in family.delays)) s.scene.m s.scene.later others.old others.new }
{
    walk(family, image, k, image.module(k), units, others);
}

// Its occurrences, from first to last. Each fills the next slots of both frames.
#[cycle(run_module_walk)]
fn walk(
    family: Family,
    image: &Image<'_>,
    k: usize,
    header: Header,
    units: &mut [u32],
    others: &mut [u32],
)
    requires walkable { Walkable image.now.numbers.now image.now.starts.now image.now.nets.now k header units.old }
    requires walkable_2 { Walkable image.now.numbers.now image.now.starts.now image.now.nets.now k header others.old }
    ensures unit { (s : Walkable image.now.numbers.now image.now.starts.now image.now.nets.now k header units.old)
        → Ran (times_work one_each) s.runnable.scene.m s.runnable.scene.later units.old units.new }
    ensures family { (s : Walkable image.now.numbers.now image.now.starts.now image.now.nets.now k header others.old)
        → Ran (times_work (delay_in family.delays)) s.runnable.scene.m s.runnable.scene.later others.old others.new }
{
    let numbers = image.numbers;
    let frame = image.nets[k];
    let mut at = header.to + 1;
    let mut filled = header.inputs;
    for _ in 0..header.count {
        let o = image::places::occurrence_at(numbers, at);
        let here = filled;
        at = o.to;
        filled += o.drives;
        match gates::kind_of(o.refers) {
            Kind::Gate(_, _) => {
                let times = crate::gate::at_gate(
                    family, o.refers, numbers, o.from, o.to, units, others,
                );
                units[here] = times.unit;
                others[here] = times.family;
            }
            Kind::Module => {
                // A module that gives nothing need not run.
                if 0 < o.drives {
                    let j = o.refers as usize - 16;
                    let sub = image.module(j);
                    run_walk::slots::copy(numbers, o.from, o.to, 0, frame, units);
                    run_walk::slots::copy(numbers, o.from, o.to, 0, frame, others);
                    run_module(family, image, j, &mut units[frame..], &mut others[frame..]);
                    run_walk::slots::copy(numbers, sub.from, sub.to, frame, here, units);
                    run_walk::slots::copy(numbers, sub.from, sub.to, frame, here, others);
                }
            }
        }
    }
}
