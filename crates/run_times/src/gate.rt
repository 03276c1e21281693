// What happens at a gate: its net arrives so long after the latest of its arguments.
ghost use Rattle.std.specs.Prelude.{◌+◌, ◌≤◌, min, ◌≡◌, length};
ghost use Rattle.meaning.specs.Figures.{largest};
ghost use Rattle.meaning.specs.Family.{delay_in};
ghost use Rattle.image.specs.Slots.{Readable, values_at};
ghost use Rattle.run_times.specs.Times.{latest, arrival};

use families::Family;
use image::buffers::larger;

// When a net arrives: with one for every gate, and by a family.
#[derive(Clone, Copy, PartialEq, Eq, Debug)]
pub struct Times {
    pub unit: u32,
    pub family: u32,
}

// The latest of the arrivals at the slots.
pub fn latest(image: &[u16], from: usize, to: usize, units: &[u32], others: &[u32]) -> Times
    requires readable { Readable image.now from to 0 (length units.now) }
    requires readable_2 { Readable image.now from to 0 (length others.now) }
    ensures unit { result.unit ≡ largest (values_at 0 image.now from to 0 units.now) }
    ensures family { result.family ≡ largest (values_at 0 image.now from to 0 others.now) }
{
    let mut unit = 0;
    let mut family = 0;
    for i in from..to {
        let slot = image::entry(image, i);
        unit = larger(unit, units[slot]);
        family = larger(family, others[slot]);
    }
    Times { unit, family }
}

// The latest arrival that an entry of scratch can hold.
const BOUND: u32 = 4294967295;

// So long after a time; it stays where no later one can be written.
fn after(time: u32, lasts: u32) -> u32
    ensures { result ≡ min (lasts + time) latest }
{
    if time < BOUND - lasts {
        time + lasts
    } else {
        BOUND
    }
}

// What a gate of a kind makes of the arrivals at the slots.
pub fn at_gate(
    family: Family,
    kind: u16,
    image: &[u16],
    from: usize,
    to: usize,
    units: &[u32],
    others: &[u32],
) -> Times
    requires readable { Readable image.now from to 0 (length units.now) }
    requires readable_2 { Readable image.now from to 0 (length others.now) }
    ensures unit { result.unit ≡ arrival 1 (values_at 0 image.now from to 0 units.now) }
    ensures family { result.family ≡ arrival (delay_in family.delays kind) (values_at 0 image.now from to 0 others.now) }
{
    let last = latest(image, from, to, units, others);
    let unit = after(last.unit, 1);
    let own = after(last.family, families::delay_of(family, kind));
    Times { unit, family: own }
}
