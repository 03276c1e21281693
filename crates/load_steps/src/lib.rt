// The steps of working out loads of nets: each place where a net stands as an argument adds 1 at a gate, and at a module the load of that
// input inside it; and where a module drives the net, the load of that output inside it is added.
#![tactic(auto)]

ghost use Rattle.std.specs.Prelude.{◌≡◌, ◌-◌, ◌≤◌, length, get_or, take};
ghost use Rattle.std.proofs.Math.Seq.{paste};
ghost use Rattle.meaning.specs.Figures.{largest};
ghost use Rattle.image.specs.Slots.{Readable, values_at};
ghost use Rattle.load_steps.specs.Steps.{Placed, LoadsAdded, Inside, InsideAdded, Keepable, Written};

use image::places::{Header, Place};

// The largest of the first entries.
pub fn largest(scratch: &[u32], count: usize) -> u32
    requires { count ≤ length scratch.now }
    ensures { result ≡ largest (take count scratch.now) }
{
    let mut most = 0;
    for i in 0..count {
        most = image::buffers::larger(most, scratch[i]);
    }
    most
}

// Each place of a list of nets adds to the load of its net: 1 for an argument of a gate, and at a module, for which `inside` is true, the
// load of that input or output. Those stand in `loads` from `first` on.
pub fn add_loads(
    image: &[u16],
    from: usize,
    to: usize,
    inside: bool,
    first: usize,
    loads: &[u32],
    scratch: &mut [u32],
)
    requires { Placed image.now from to inside first loads.now scratch.old }
    ensures { (p : Placed image.now from to inside first loads.now scratch.old)
        → LoadsAdded image.now from to inside first loads.now p.frame scratch.old scratch.new }
{
    for i in from..to {
        let slot = image::entry(image, i);
        let load = if inside { loads[first + (i - from)] } else { 1 };
        scratch[slot] += load;
    }
}

// What an occurrence of a module adds, whose numbers begin at `start`: to each argument the load of that input inside the module, and to
// each net that it drives the load of that output. Both stand in `loads` where inputs and outputs stand in the image.
pub fn add_inside(image: &[u16], o: Place, start: usize, loads: &[u32], scratch: &mut [u32])
    requires { Inside image.now o start loads.now scratch.old }
    ensures { (p : Inside image.now o start loads.now scratch.old)
        → InsideAdded image.now o start loads.now p.frame scratch.old scratch.new }
{
    add_loads(image, o.from, o.to, true, start + 2, loads, scratch);
    let end = o.from - 2;
    add_loads(
        image,
        end - o.drives,
        end,
        true,
        start + 3 + (o.to - o.from),
        loads,
        scratch,
    );
}

// What is kept of the module at position k: its largest load plus 1, or 0 for nothing. A position behind the list has none.
pub fn kept_at(known: &[u32], k: usize) -> u32
    ensures { result ≡ get_or known.now k 0 }
{
    if k < known.len() { known[k] } else { 0 }
}

// The entries at the slots that stand at the places `from` to `to` of the image are kept at these places.
fn keep_slots(image: &[u16], from: usize, to: usize, scratch: &[u32], loads: &mut [u32])
    requires readable { Readable image.now from to 0 (length scratch.now) }
    requires to_in_bounds { to ≤ length loads.old }
    ensures { loads.new
        ≡ paste loads.old from (values_at 0 image.now from to 0 scratch.now) (to - from) }
{
    for i in from..to {
        let slot = image::entry(image, i);
        loads[i] = scratch[slot];
    }
}

// The module at position k is kept, whose numbers begin at `start`: the loads of its inputs, the first of its frame, and of its outputs, where
// both stand in the image, and its largest load plus 1.
pub fn keep(
    image: &[u16],
    start: usize,
    header: Header,
    k: usize,
    load: u32,
    scratch: &[u32],
    loads: &mut [u32],
    known: &mut [u32],
)
    requires { Keepable image.now start header load scratch.now loads.old }
    ensures { Written image.now start header k load scratch.now loads.old known.old loads.new known.new }
{
    image::buffers::copy(scratch, 0, header.inputs, loads, start + 2);
    keep_slots(image, header.from, header.to, scratch, loads);
    if k < known.len() {
        known[k] = load + 1;
    }
}
