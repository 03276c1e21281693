// A module and its list of occurrences, placed through each other: placing a module walks over its occurrences, which places the modules
// that they refer to. The image comes by reference: by value its three slices would be copied at each call.
ghost use Rattle.std.specs.Prelude.{get_or};
ghost use Rattle.image.specs.Places.{HeaderOf};
ghost use Rattle.flat_engine.specs.Plan.{Plan, Ready, SomeReady, SomeWalkable, Done};

use flat_bytes::pen::Pen;
use gates::Kind;
use image::Image;
use image::places::Header;

// The module at position k. The nets of its inputs stand at the front of the scratch, and in the end those of all its slots do.
#[cycle(place_module_walk)]
pub(crate) fn place_module(
    image: &Image<'_>,
    k: usize,
    pen: Pen,
    scratch: &mut [u16],
    bytes: &mut [u8],
) -> Pen
    requires { SomeReady image.now.numbers.now image.now.starts.now image.now.nets.now k pen scratch.old bytes.old }
    ensures { (p : Plan) → Ready p image.now.numbers.now image.now.starts.now image.now.nets.now k pen scratch.old bytes.old → Done p scratch.old scratch.new result bytes.new }
{
    let header = image::places::module_at(image.numbers, image.starts[k]);
    walk(image, k, header, pen, scratch, bytes)
}

// Its occurrences, from first to last. A module that one refers to works behind the slots of this one: its arguments are copied to the
// front of that part, and its outputs from there.
#[cycle(place_module_walk)]
fn walk(
    image: &Image<'_>,
    k: usize,
    header: Header,
    pen: Pen,
    scratch: &mut [u16],
    bytes: &mut [u8],
) -> Pen
    requires { SomeWalkable image.now.numbers.now image.now.starts.now image.now.nets.now k header pen scratch.old bytes.old }
    ensures { (p : Plan) → Ready p image.now.numbers.now image.now.starts.now image.now.nets.now k pen scratch.old bytes.old → HeaderOf image.now.numbers.now (get_or image.now.starts.now k 0) p.m header → Done p scratch.old scratch.new result bytes.new }
{
    let frame = image.nets[k];
    // The pen's numbers by themselves, since a struct that is lent on is kept in memory.
    let mut next = pen.next;
    let mut behind = pen.at;
    let mut at = header.to + 1;
    let mut filled = header.inputs;
    for _ in 0..header.count {
        let o = image::places::occurrence_at(image.numbers, at);
        let here = filled;
        at = o.to;
        filled += o.drives;
        match gates::kind_of(o.refers) {
            Kind::Gate(_, _) => {
                behind = flat_bytes::pen::set_gate(
                    o.refers,
                    next,
                    image.numbers,
                    o.from,
                    o.to,
                    scratch,
                    bytes,
                    behind,
                );
                scratch[here] = next;
                next += 1;
            }
            Kind::Module => {
                let j = o.refers as usize - 16;
                let sub = image::places::module_at(image.numbers, image.starts[j]);
                crate::slots::copy(image.numbers, o.from, o.to, 0, frame, scratch);
                let pen = Pen { next, at: behind };
                let pen = place_module(image, j, pen, &mut scratch[frame..], bytes);
                next = pen.next;
                behind = pen.at;
                crate::slots::copy(image.numbers, sub.from, sub.to, frame, here, scratch);
            }
        }
    }
    Pen { next, at: behind }
}
