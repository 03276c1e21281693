// A module and its list of occurrences, evaluated through each other: a module by the walk over its occurrences, which evaluates each
// module that it meets, in the part of scratch behind its own frame. So the stack grows with the nesting of modules only. An occurrence
// that drives no net leaves nothing behind, so the module that it refers to is not evaluated. The image comes by reference: by value its
// three slices would be copied at each call.
ghost use Rattle.run_walk.specs.Running.{Runnable, Walkable, Ran};

use crate::work::Work;
use gates::Kind;
use image::Image;
use image::places::Header;

// The module at position k. Its inputs stand at the front of scratch, and then its whole frame does.
#[cycle(run_module_walk)]
pub fn run_module<W: Work>(image: &Image<'_>, k: usize, scratch: &mut [W::Entry])
    requires { Runnable image.now.numbers.now image.now.starts.now image.now.nets.now k scratch.old }
    ensures { (s : Runnable image.now.numbers.now image.now.starts.now image.now.nets.now k scratch.old)
        → Ran W.work s.scene.m s.scene.later scratch.old scratch.new }
{
    walk::<W>(image, k, image.module(k), scratch);
}

// Its occurrences, from first to last. Each fills the next slots of the frame.
#[cycle(run_module_walk)]
fn walk<W: Work>(image: &Image<'_>, k: usize, header: Header, scratch: &mut [W::Entry])
    requires { Walkable image.now.numbers.now image.now.starts.now image.now.nets.now k header scratch.old }
    ensures { (s : Walkable image.now.numbers.now image.now.starts.now image.now.nets.now k header scratch.old)
        → Ran W.work s.runnable.scene.m s.runnable.scene.later scratch.old scratch.new }
{
    let numbers = image.numbers;
    let frame = image.nets[k];
    let mut at = header.to + 1;
    let mut filled = header.inputs;
    for _ in 0..header.count {
        let o = image::places::occurrence_at(numbers, at);
        let here = filled;
        at = o.to;
        filled += o.drives;
        match gates::kind_of(o.refers) {
            Kind::Gate(rule, _) => {
                scratch[here] = W::at_gate(rule, numbers, o.from, o.to, scratch);
            }
            Kind::Module => {
                // A module that gives nothing need not run.
                if 0 < o.drives {
                    let j = o.refers as usize - 16;
                    let sub = image.module(j);
                    crate::slots::copy(numbers, o.from, o.to, 0, frame, scratch);
                    run_module::<W>(image, j, &mut scratch[frame..]);
                    crate::slots::copy(numbers, sub.from, sub.to, frame, here, scratch);
                }
            }
        }
    }
}
