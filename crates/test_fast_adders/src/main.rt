// Orders propagate-generate adders and prints what comes back: the answer, and for short buffers what they then hold. Each byte of a buffer is
// FF at first, so that what is left as it was can be seen.
#![tactic(auto)]

use refusals::Refusal;
use std::io;
use test_orders::{order, show};

fn main(rt: HostRuntime) -> io::Result<()> {
    show::<4, _>(&rt, write, 0)?;
    show::<4, _>(&rt, write, 65)?;
    show::<99, _>(&rt, write, 1)?;
    show::<100, _>(&rt, write, 1)?;
    show::<103, _>(&rt, write, 1)?;
    show::<300, _>(&rt, write, 6)?;
    widths(&rt)
}

// Widths at which the shape grows, with room for the widest and no more; one byte less is too few for that one.
fn widths(rt: &impl Print) -> io::Result<()> {
    for width in [2, 3, 7, 15, 32, 33, 64] {
        order::<3746, _>(rt, write, width)?;
    }
    order::<3745, _>(rt, write, 64)
}

// A function of this crate, since one of another crate has no proof where it is passed by its name.
fn write(width: usize, buffer: &mut [u8]) -> Result<usize, Refusal> {
    write_order::fast_adder(width, buffer)
}
