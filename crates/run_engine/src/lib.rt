// Running a module on the image of a checked file: its outputs for the values of its inputs, and its delays. Each is a run in scratch,
// which is cleared again.
#![tactic(auto)]

ghost use Rattle.std.specs.Prelude.{◌≡◌};
ghost use Rattle.meaning.specs.Family.{delay_in};
ghost use Rattle.run_times.specs.Times.{one_each};
ghost use Rattle.run_engine.specs.Calls.{Callable, Evaluable, Evaluated, Delayed, cleared};

use families::Family;
use image::Image;
use run_times::gate::Times;
use run_walk::gate::Values;

pub mod buffers;

// The outputs of the module at position k for the values of its inputs, as the first bytes of `out`. The first `room` entries of
// scratch are 0 afterwards.
pub fn evaluate(
    image: Image<'_>,
    k: usize,
    room: usize,
    values: &[u8],
    scratch: &mut [u32],
    out: &mut [u8],
)
    requires { Evaluable image.numbers.now image.starts.now image.nets.now k room values.now scratch.old out.old }
    ensures { (e : Evaluable image.entry.numbers.now image.entry.starts.now image.entry.nets.now k room values.now scratch.old out.old)
        → Evaluated e.callable.rs k room values.now scratch.old out.old scratch.new out.new }
{
    let header = image.module(k);
    crate::buffers::load(values, scratch);
    run_walk::walk::run_module::<Values>(&image, k, scratch);
    crate::buffers::give(image.numbers, header.from, header.to, scratch, out);
    image::buffers::clear(room, scratch);
}

// The latest arrivals among the outputs of the module at position k, from 0 at its inputs: with one for every gate, and by the delays of a
// family. The first `room` entries of scratch are 0 afterwards; `others` has so many too, in which the family's arrivals are left.
pub fn delays(
    family: Family,
    image: Image<'_>,
    k: usize,
    room: usize,
    scratch: &mut [u32],
    others: &mut [u32],
) -> Times
    requires callable { Callable image.numbers.now image.starts.now image.nets.now k room scratch.old }
    requires callable_2 { Callable image.numbers.now image.starts.now image.nets.now k room others.old }
    ensures unit { (e : Callable image.entry.numbers.now image.entry.starts.now image.entry.nets.now k room scratch.old)
        → Delayed one_each e.rs e.scene.m k result.unit }
    ensures family { (e : Callable image.entry.numbers.now image.entry.starts.now image.entry.nets.now k room others.old)
        → Delayed (delay_in family.delays) e.rs e.scene.m k result.family }
    ensures cleared { scratch.new ≡ cleared room scratch.old }
{
    let header = image.module(k);
    image::buffers::clear(header.inputs, scratch);
    image::buffers::clear(header.inputs, others);
    run_times::walk::run_module(family, &image, k, scratch, others);
    let latest = run_times::gate::latest(image.numbers, header.from, header.to, scratch, others);
    image::buffers::clear(room, scratch);
    latest
}
