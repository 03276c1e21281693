// Orders adders and prints what comes back: the answer, and for short buffers what they then hold. Each byte of a buffer is FF at
// first, so that what is left as it was can be seen.
#![tactic(auto)]

use refusals::Refusal;
use std::io;
use test_orders::{order, show};

fn main(rt: HostRuntime) -> io::Result<()> {
    show::<4, _>(&rt, write, 0)?;
    show::<4, _>(&rt, write, 65)?;
    show::<66, _>(&rt, write, 1)?;
    show::<67, _>(&rt, write, 1)?;
    show::<70, _>(&rt, write, 1)?;
    order::<1018, _>(&rt, write, 64)?;
    order::<1019, _>(&rt, write, 64)
}

// A function of this crate, since one of another crate has no proof where it is passed by its name.
fn write(width: usize, buffer: &mut [u8]) -> Result<usize, Refusal> {
    write_order::adder(width, buffer)
}
