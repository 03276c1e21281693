// The look-ahead to order (docs/ADDER.md): module 41, which gives the carry behind each bit, and the modules 43 and 42 that it is made of.
#![tactic(auto)]

pub mod carries;
pub mod chain;
pub mod rows;
pub mod trees;

ghost use Rattle.std.specs.Prelude.{◌≤◌};
ghost use Rattle.meaning.specs.Layout.{each, module_numbers, number_bytes};
ghost use Rattle.meaning.specs.FastAdder.{lookahead as lookaheadOf, steps as steps_of, carry_one, carry_two};
ghost use Rattle.bytes_out.specs.Filled.{Put};
ghost use Rattle.write_pieces.specs.Rooms.{Room};

use crate::chain::chain;
use crate::rows::{carries, carry_and_bits};
use write_pieces::bytes::copy;
use write_trees::{Tree, height};

// Module 41: inputs the carry in, all p and all g; outputs the carries behind the bits. How many occurrences it has is known behind the last
// of them, and is a byte in front of them.
pub fn lookahead(width: u16, bytes: &mut [u8], at: usize) -> usize
    requires { (1 ≤ width) × (width ≤ 64) × Room (each number_bytes (module_numbers (lookaheadOf width (steps_of width)))) bytes.old at }
    ensures { Put (each number_bytes (module_numbers (lookaheadOf width (steps_of width)))) bytes.old at bytes.new result }
{
    let outputs = carry_and_bits(41, width, 0, width + 1, bytes, at);
    let count = carries(width, 0, bytes, outputs);
    let spine = Tree::Spine {
        step: 0,
        height: height(width),
    };
    let laid = chain(width, spine, width, 0, bytes, count + 1);
    bytes[count] = (2 * width - laid.trees) as u8;
    laid.at
}

// Module 43, the carry behind two trees.
pub fn carry_two(bytes: &mut [u8], at: usize) -> usize
    requires { Room (module_numbers carry_two) bytes.old at }
    ensures { Put (module_numbers carry_two) bytes.old at bytes.new result }
{
    let makes = copy(&[43, 5, 0, 1, 2, 3, 4, 1, 7, 3], bytes, at);
    let passes = copy(&[1, 5, 10, 2, 3, 2], bytes, makes);
    let either = copy(&[1, 6, 11, 3, 3, 1, 0], bytes, passes);
    copy(&[1, 7, 6, 3, 4, 5, 6], bytes, either)
}

// Module 42, the carry behind one tree.
pub fn carry_one(bytes: &mut [u8], at: usize) -> usize
    requires { Room (module_numbers carry_one) bytes.old at }
    ensures { Put (module_numbers carry_one) bytes.old at bytes.new result }
{
    let passes = copy(&[42, 3, 0, 1, 2, 1, 4, 2], bytes, at);
    let either = copy(&[1, 3, 10, 2, 1, 0], bytes, passes);
    copy(&[1, 4, 5, 2, 2, 3], bytes, either)
}
