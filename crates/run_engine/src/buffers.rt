// The front of a lent buffer: values loaded into scratch, and outputs given as bytes.
ghost use Rattle.std.specs.Prelude.{◌≡◌, ◌++◌, map, ◌≤◌, length, drop};
ghost use Rattle.image.specs.Slots.{values_at};
ghost use Rattle.run_engine.specs.Slots.{Givable, entered};

const UNKNOWN: u32 = 2;

// What an input enters scratch as: only 0 and 1 are known, and one that floats is unknown from here on.
#[tactic(auto, using(crate::proofs::Entering::as_it_is, crate::proofs::Entering::as_unknown))]
fn entered(input: u8) -> u32
    ensures { result ≡ entered input }
{
    if input < 2 { input as u32 } else { UNKNOWN }
}

pub fn load(values: &[u8], scratch: &mut [u32])
    requires { length values.now ≤ length scratch.old }
    ensures { scratch.new ≡ map entered values.now ++ drop (length values.now) scratch.old }
{
    for i in 0..values.len() {
        scratch[i] = entered(values[i]);
    }
}

// The values at the slots, which are bytes.
pub fn give(image: &[u16], from: usize, to: usize, scratch: &[u32], out: &mut [u8])
    requires { Givable image.now from to scratch.now out.old }
    ensures { out.new
        ≡ values_at 0 image.now from to 0 scratch.now
        ++ drop (length (values_at 0 image.now from to 0 scratch.now)) out.old }
{
    let count = to - from;
    for i in 0..count {
        out[i] = scratch[image::entry(image, from + i)] as u8;
    }
}
