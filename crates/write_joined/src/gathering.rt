// Modules gathered one behind the other.
ghost use Rattle.write_joined.specs.Gathering.{Gathering, Gathers, At, Takes};

use write_pieces::bytes::copy;

// How many modules are gathered, and the place behind their bytes.
#[derive(Clone, Copy)]
pub struct Gathered {
    pub modules: usize,
    pub at: usize,
}

// The module at a position, if its number is not marked.
fn gather_one(
    house: &[u8],
    names: &[u16],
    places: &[usize],
    k: usize,
    marks: &[u8],
    bytes: &mut [u8],
    done: Gathered,
) -> Gathered
    requires { At house.now names.now places.now k marks.now bytes.old done }
    ensures { (a : At house.now names.now places.now k marks.now bytes.old done)
        → Takes a.own a.m bytes.old bytes.new done result }
{
    if marks[image::entry(names, k)] != 0 {
        return done;
    }
    let start = places[k];
    let end = places[k + 1];
    let at = done.at;
    Gathered {
        modules: done.modules + 1,
        at: copy(&house[start..end], bytes, at),
    }
}

// All modules whose numbers are not marked, in order.
pub fn gather(
    house: &[u8],
    names: &[u16],
    places: &[usize],
    modules: usize,
    marks: &[u8],
    bytes: &mut [u8],
    done: Gathered,
) -> Gathered
    requires { Gathering house.now names.now places.now modules marks.now bytes.old done }
    ensures { (g : Gathering house.now names.now places.now modules marks.now bytes.old done)
        → Gathers g.own g.shelved.ms bytes.old bytes.new done result }
{
    let mut all = done;
    for k in 0..modules {
        all = gather_one(house, names, places, k, marks, bytes, all);
    }
    all
}
