// The end of a flattening, once the bytes of the flattened file are known.
#![tactic(auto)]

ghost use Rattle.std.specs.Prelude.{◌≡◌, ◌+◌, ◌≤◌, length, drop};
ghost use Rattle.std.proofs.Math.Seq.{paste};
ghost use Rattle.meaning.specs.Calls.{fitting};
ghost use Rattle.answers.specs.Settled.{Settles};
ghost use Rattle.flat_ending.specs.Order.{front_first};

use refusals::Refusal;

// So many bytes, those from a place on, to a place of `out`.
fn copy(bytes: &[u8], from: usize, count: usize, out: &mut [u8], at: usize)
    requires count_in_bounds { from + count ≤ length bytes.now }
    requires count_in_bounds_2 { at + count ≤ length out.old }
    ensures { out.new ≡ paste out.old at (drop from bytes.now) count }
{
    for i in 0..count {
        out[at + i] = bytes[from + i];
    }
}

// The gates stand first in `bytes`, and behind them, up to `whole`, what stands in front of them in the file. Clears the room and writes
// the file, or gives 22 where the buffer is shorter.
pub fn answer(
    bytes: &[u8],
    gates: usize,
    whole: usize,
    room: usize,
    scratch: &mut [u32],
    out: &mut [u8],
) -> Result<usize, Refusal>
    requires gates_le_whole { gates ≤ whole }
    requires whole_in_bounds { whole ≤ length bytes.now }
    requires room_in_bounds { room ≤ length scratch.old }
    ensures { Settles (fitting (front_first bytes.now gates whole) room (length out.old))
        scratch.old out.old scratch.new out.new result }
{
    if whole <= out.len() {
        let front = whole - gates;
        image::buffers::clear(room, scratch);
        copy(bytes, gates, front, out, 0);
        copy(bytes, 0, gates, out, front);
        Ok(whole)
    } else {
        Err(Refusal {
            number: 22,
            place: 0,
        })
    }
}
