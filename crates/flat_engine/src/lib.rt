// Flattening: the walk of evaluation over the image of a checked file, with nets of the new module for values.
#![tactic(auto)]

ghost use Rattle.flat_engine.specs.Flat.{Flattenable, Flattened};

use flat_bytes::pen::Pen;
use image::Image;

mod slots;
mod walk;

// Where the gates of a flattened file end, and where all of its bytes do.
#[derive(Clone, Copy)]
pub struct Ends {
    pub gates: usize,
    pub whole: usize,
}

// The module at position k, flattened under its number: writes the bytes of the file that holds it alone to the front of `bytes`. The
// gates come first, and behind them what stands in front of them in the file, since the nets of the outputs are known only behind the
// gates. The scratch is left as the walk left it.
pub fn flatten(image: Image, k: usize, number: u16, scratch: &mut [u16], bytes: &mut [u8]) -> Ends
    requires { Flattenable image.numbers.now image.starts.now image.nets.now k number scratch.old bytes.old }
    ensures { (f : Flattenable image.entry.numbers.now image.entry.starts.now image.entry.nets.now k number scratch.old bytes.old) → Flattened f.ms number f.m bytes.old bytes.new result }
{
    let start = image.starts[k];
    let header = image::places::module_at(image.numbers, start);
    let inputs = header.inputs;
    crate::slots::number_inputs(inputs, scratch);
    let first = Pen {
        next: inputs as u16,
        at: 0,
    };
    let last = crate::walk::place_module(&image, k, first, scratch, bytes);
    let gates = last.at;
    let whole = flat_bytes::front::set_front(
        image.numbers,
        start,
        header,
        number,
        last.next - first.next,
        scratch,
        bytes,
        gates,
    );
    Ends { gates, whole }
}
