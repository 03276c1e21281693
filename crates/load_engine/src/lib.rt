// Tally and largest load of a module in one walk over its occurrences, on the image of a checked file.
#![tactic(auto)]

ghost use Rattle.std.specs.Prelude.{◌≡◌, ◌++◌, ◌+◌, ◌≤◌, length, drop, replicate};
ghost use Rattle.meaning.specs.Figures.{tally};
ghost use Rattle.meaning.specs.Loads.{largest_load};
ghost use Rattle.tally_engine.specs.Tallies.{Countable};
ghost use Rattle.tally_engine.specs.Rows.{marks, Tallying, Tallied};
ghost use Rattle.load_engine.specs.Loads.{Loadable, Workable, Loaded};

use gates::Kind;
use image::Image;
use image::buffers::{clear, larger};
use load_steps::{add_inside, add_loads, keep, kept_at, largest};
use tally_engine::Tally;

// What a module weighs: its gates of each kind, and the largest load of a net.
#[derive(Clone, Copy)]
pub struct Weighed {
    pub tally: Tally,
    pub load: u32,
}

// Tally and largest load of the module at position k; the loads of its inputs and outputs are left in `loads`. An entry of `known` above 0 says that
// both are kept: the tally in its row, and the entry is the largest load plus 1. What is kept is looked up, so the work is bounded by the
// length of the file. The image comes by reference: by value its three slices would be copied at each call.
fn weigh_once(
    image: &Image<'_>,
    k: usize,
    scratch: &mut [u32],
    loads: &mut [u32],
    rows: &mut [u32],
    known: &mut [u32],
) -> Weighed
    requires workable { Workable image.now.numbers.now image.now.starts.now image.now.nets.now k (length scratch.old) loads.old known.old }
    requires tallying { Tallying image.now.numbers.now image.now.starts.now k rows.old (marks known.old) }
    ensures load { (s : Workable image.now.numbers.now image.now.starts.now image.now.nets.now k (length scratch.old) loads.old known.old)
        → Loaded image.now.numbers.now image.now.starts.now s.loadable.rs s.loadable.scene.m k result.load scratch.old scratch.new loads.new known.new }
    ensures tally { (s : Tallying image.now.numbers.now image.now.starts.now k rows.old (marks known.old))
        → Tallied s.countable.rs k result.tally.counts rows.new (marks known.new) }
{
    let kept = kept_at(known, k);
    if 0 < kept {
        return Weighed {
            tally: tally_engine::rows::row_at(rows, k),
            load: kept - 1,
        };
    }
    let frame = image.nets[k];
    clear(frame, scratch);
    let start = image.starts[k];
    let header = image::places::module_at(image.numbers, start);
    let mut at = header.to + 1;
    let mut most = 0;
    let mut tally = Tally::nothing();
    for _ in 0..header.count {
        let o = image::places::occurrence_at(image.numbers, at);
        at = o.to;
        match gates::kind_of(o.refers) {
            Kind::Gate(_, _) => {
                tally = tally.with_gate(o.refers as usize);
                add_loads(image.numbers, o.from, o.to, false, 0, loads, scratch);
            }
            Kind::Module => {
                let j = o.refers as usize - 16;
                let inner = weigh_once(image, j, &mut scratch[frame..], loads, rows, known);
                most = larger(most, inner.load);
                let reached = inner.tally;
                tally = tally.with_tally(reached);
                add_inside(image.numbers, o, image.starts[j], loads, scratch);
            }
        }
    }
    let load = larger(largest(scratch, frame), most);
    keep(image.numbers, start, header, k, load, scratch, loads, known);
    tally_engine::rows::write_row(tally, k, known.len(), rows);
    Weighed { tally, load }
}

// Tally and largest load of the module at position k, over the modules reached too. The first `room` entries of scratch are 0 afterwards;
// `loads` has an entry for each of the image. A file has at most 128 modules, so each is kept.
pub fn weigh(image: Image, k: usize, room: usize, scratch: &mut [u32], loads: &mut [u32]) -> Weighed
    requires loadable { Loadable image.numbers.now image.starts.now image.nets.now k room }
    requires countable { Countable image.numbers.now image.starts.now k }
    requires room_in_bounds { room ≤ length scratch.old }
    requires image_in_bounds { length image.numbers.now ≤ length loads.old }
    ensures most { (s : Loadable image.entry.numbers.now image.entry.starts.now image.entry.nets.now k room)
        → result.load ≡ largest_load s.rs (16 + k) }
    ensures tally { (s : Countable image.entry.numbers.now image.entry.starts.now k)
        → result.tally.counts ≡ tally s.rs (16 + k) }
    ensures cleared { scratch.new ≡ replicate room 0 ++ drop room scratch.old }
{
    let mut rows = [0u32; 2048];
    let mut known = [0u32; 128];
    let weighed = weigh_once(&image, k, scratch, loads, &mut rows, &mut known);
    clear(room, scratch);
    weighed
}
