// Orders leading-zero counters and prints what comes back: the answer, and for short buffers what they then hold. Each byte of a
// buffer is FF at first, so that what is left as it was can be seen.
#![tactic(auto)]

use refusals::Refusal;
use std::io;
use test_orders::{order, show};

fn main(rt: HostRuntime) -> io::Result<()> {
    show::<4, _>(&rt, write, 0)?;
    show::<4, _>(&rt, write, 65)?;
    show::<53, _>(&rt, write, 3)?;
    show::<54, _>(&rt, write, 3)?;
    show::<57, _>(&rt, write, 3)?;
    show::<223, _>(&rt, write, 12)?;
    order::<477, _>(&rt, write, 32)?;
    order::<478, _>(&rt, write, 32)?;
    order::<772, _>(&rt, write, 64)?;
    order::<773, _>(&rt, write, 64)
}

// A function of this crate, since one of another crate has no proof where it is passed by its name.
fn write(width: usize, buffer: &mut [u8]) -> Result<usize, Refusal> {
    write_order::counter(width, buffer)
}
