// The blocks of a counter (docs/COUNTER.md, 'Blocks'). The block of level j counts 2^j bits.
#![tactic(auto)]

pub mod choice;

ghost use Rattle.std.specs.Prelude.{◌≤◌, ◌^◌, ◌≡◌};
ghost use Rattle.meaning.specs.Layout.{each, module_numbers};
ghost use Rattle.meaning.specs.Counter.{block_number, pair_block, join_block, block as block_of, blocks as blocksOf};
ghost use Rattle.bytes_out.specs.Filled.{Put};
ghost use Rattle.write_pieces.specs.Rooms.{Room};

use crate::choice::choose;
use write_pieces::gates::Gate;
use write_pieces::rows::{gate, head, reference};

// How many bits the block of a level counts.
pub fn bits_of(level: u8) -> u8
    requires { level ≤ 6 }
    ensures { (result ≡ 2 ^ level) × (result ≤ 64) }
{
    1 << level
}

// The number that refers to the block of a level.
pub fn block_number(level: u8) -> u8
    requires { level ≤ 6 }
    ensures { result ≡ block_number level }
{
    if level == 0 {
        Gate::Not as u8
    } else {
        32 + level
    }
}

// Module 33, the block of level 1: a pair of bits.
fn pair_block(bytes: &mut [u8], at: usize) -> usize
    requires { Room (module_numbers pair_block) bytes.old at }
    ensures { Put (module_numbers pair_block) bytes.old at bytes.new result }
{
    let empty = head(33, 2, 2, 2, 2, bytes, at);
    let count = gate(3, Gate::Nor as u8, 0, 1, bytes, empty);
    gate(2, Gate::Nor as u8, 1, 3, bytes, count)
}

// The block of level j + 1: one of level j on the low and one on the high half of its bits, the choice between their counts, and
// the top count bit and "empty" over both.
fn join_block(j: u8, bytes: &mut [u8], at: usize) -> usize
    requires { (j ≤ 5) × Room (module_numbers (join_block j)) bytes.old at }
    ensures { Put (module_numbers (join_block j)) bytes.old at bytes.new result }
{
    let half = bits_of(j);
    let block = block_number(j);
    let low = 2 * half;
    let low_empty = low + j;
    let high = low_empty + 1;
    let high_empty = high + j;
    let ands = high_empty + 1;
    let ors = ands + j;
    let top = ors + j;
    let empty = top + 1;
    let low_half = head(33 + j, low, ors, j + 2, 2 * j + 4, bytes, at);
    let high_half = reference(low, j + 1, block, 0, half, bytes, low_half);
    let choice = reference(high, j + 1, block, half, half, bytes, high_half);
    let both = choose(high_empty, high, low, ands, ors, j, bytes, choice);
    let top_bit = gate(empty, Gate::And as u8, high_empty, low_empty, bytes, both);
    gate(top, Gate::Xor as u8, high_empty, empty, bytes, top_bit)
}

// The block of level j + 1.
fn block(j: u8, bytes: &mut [u8], at: usize) -> usize
    requires { (j ≤ 5) × Room (module_numbers (block_of j)) bytes.old at }
    ensures { Put (module_numbers (block_of j)) bytes.old at bytes.new result }
{
    if j == 0 {
        return pair_block(bytes, at);
    }
    join_block(j, bytes, at)
}

// The blocks up to a level, the largest first.
pub fn blocks(level: u8, bytes: &mut [u8], at: usize) -> usize
    requires { (level ≤ 6) × Room (each module_numbers (blocksOf level)) bytes.old at }
    ensures { Put (each module_numbers (blocksOf level)) bytes.old at bytes.new result }
{
    let mut at = at;
    for j in (0..level).rev() {
        at = block(j, bytes, at);
    }
    at
}
