// The propagate-generate adder to order (docs/ADDER.md): module 40, and the file with the look-ahead. A place in the list of bytes is named
// after what is to stand there.
#![tactic(auto)]

pub mod rows;

ghost use Rattle.std.specs.Prelude.{◌+◌, ◌*◌, ◌≤◌, length};
ghost use Rattle.meaning.specs.Layout.{each, module_numbers, number_bytes, encode};
ghost use Rattle.meaning.specs.FastAdder.{fast_module, fast_adder};
ghost use Rattle.bytes_out.specs.Filled.{Put, Filled};
ghost use Rattle.write_pieces.specs.Rooms.{Room};
ghost use Rattle.write_fast.specs.Heads.{head_bytes};

use crate::rows::gate_row;
use write_ahead::rows::{carry_and_bits, look_ahead};
use write_ahead::{carry_one, carry_two, lookahead};
use write_pieces::bytes::copy;
use write_pieces::gates::Gate;
use write_pieces::numbers::{put_list, put_run};

// What stands in module 40 in front of its occurrences: its number, its inputs, its outputs (the sums, then the last carry), and how many
// occurrences it has.
fn fast_head(width: u16, bytes: &mut [u8], at: usize) -> usize
    requires { (width ≤ 64) × Room (head_bytes width) bytes.old at }
    ensures { Put (head_bytes width) bytes.old at bytes.new result }
{
    let outputs = carry_and_bits(40, width, 0, width + 1, bytes, at);
    let sums = put_list(&[width + 1], bytes, outputs);
    let last = put_run(5 * width + 1, width, bytes, sums);
    put_list(&[width, 3 * width + 1], bytes, last)
}

// Module 40: p and g of each bit, the carries by module 41, and the sums.
fn fast_module(width: u16, bytes: &mut [u8], at: usize) -> usize
    requires { (width ≤ 64) × Room (each number_bytes (module_numbers (fast_module width))) bytes.old at }
    ensures { Put (each number_bytes (module_numbers (fast_module width))) bytes.old at bytes.new result }
{
    let a = width + 1;
    let b = 2 * width + 1;
    let p = 3 * width + 1;
    let passes = fast_head(width, bytes, at);
    let makes = gate_row(Gate::Xor as u16, p, a, b, width, bytes, passes);
    let carries = gate_row(Gate::And as u16, 4 * width + 1, a, b, width, bytes, makes);
    let sums = look_ahead(width, 0, p, bytes, carries);
    gate_row(Gate::Xor as u16, 5 * width + 1, p, 0, width, bytes, sums)
}

// The whole file, and how many bytes it has.
pub fn file(width: u16, bytes: &mut [u8]) -> usize
    requires { (1 ≤ width) × (width ≤ 64) × (86 * width + 132 ≤ length bytes.old) }
    ensures { Filled (encode (fast_adder width)) bytes.old bytes.new result }
{
    let first = copy(&[4], bytes, 0);
    let second = fast_module(width, bytes, first);
    let third = lookahead(width, bytes, second);
    let fourth = carry_two(bytes, third);
    carry_one(bytes, fourth)
}
