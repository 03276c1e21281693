// The ripple adder to order (document 01, 'Written modules'): a function for each of its modules. A place in the list of bytes is
// named after what is to stand there. Only the numbers of module 18 pass 127: those of the others are bytes as they stand.
#![tactic(auto)]

ghost use Rattle.std.specs.Prelude.{◌≤◌, length};
ghost use Rattle.meaning.specs.Layout.{each, occurrence_numbers, module_numbers, number_bytes, encode};
ghost use Rattle.meaning.specs.Adder.{adder as adderOf, ripple_adder, full_adder, half_adder};
ghost use Rattle.bytes_out.specs.Filled.{Put, Filled};
ghost use Rattle.write_pieces.specs.Rooms.{Room};

use write_pieces::bytes::copy;
use write_pieces::numbers::{put_list, put_run};

// Module 16, the half adder: sum and carry of two bits.
fn half_adder(bytes: &mut [u8], at: usize) -> usize
    requires { Room (module_numbers half_adder) bytes.old at }
    ensures { Put (module_numbers half_adder) bytes.old at bytes.new result }
{
    let sum = copy(&[16, 2, 0, 1, 2, 2, 3, 2], bytes, at);
    let carry = copy(&[1, 2, 9, 2, 0, 1], bytes, sum);
    copy(&[1, 3, 10, 2, 0, 1], bytes, carry)
}

// Module 17, the full adder: two half adders and an OR.
fn full_adder(bytes: &mut [u8], at: usize) -> usize
    requires { Room (module_numbers full_adder) bytes.old at }
    ensures { Put (module_numbers full_adder) bytes.old at bytes.new result }
{
    let first = copy(&[17, 3, 0, 1, 2, 2, 3, 4, 3], bytes, at);
    let second = copy(&[2, 5, 6, 16, 2, 0, 1], bytes, first);
    let either = copy(&[2, 3, 7, 16, 2, 5, 2], bytes, second);
    copy(&[1, 4, 5, 2, 6, 7], bytes, either)
}

// The occurrences of module 18: for each bit a sum and a carry by module 17, on a's bit, b's bit and the carry before.
fn cells(width: u16, bytes: &mut [u8], at: usize) -> usize
    requires { (width ≤ 64) × Room (each number_bytes (each occurrence_numbers (ripple_adder width).occurrences)) bytes.old at }
    ensures { Put (each number_bytes (each occurrence_numbers (ripple_adder width).occurrences)) bytes.old at bytes.new result }
{
    let mut at = at;
    let mut carry_in: u16 = 0;
    for i in 0..width {
        let sum = 2 * width + 1 + i;
        let carry = 3 * width + 1 + i;
        at = put_list(
            &[2, sum, carry, 17, 3, 1 + i, width + 1 + i, carry_in],
            bytes,
            at,
        );
        carry_in = carry;
    }
    at
}

// Module 18, the ripple adder: its outputs are the sums, low first, then the last carry.
fn ripple_adder(width: u16, bytes: &mut [u8], at: usize) -> usize
    requires { (width ≤ 64) × Room (each number_bytes (module_numbers (ripple_adder width))) bytes.old at }
    ensures { Put (each number_bytes (module_numbers (ripple_adder width))) bytes.old at bytes.new result }
{
    let inputs = put_list(&[18, 2 * width + 1], bytes, at);
    let outputs = put_run(0, 2 * width + 1, bytes, inputs);
    let sums = put_list(&[width + 1], bytes, outputs);
    let last = put_run(2 * width + 1, width, bytes, sums);
    let bits = put_list(&[4 * width, width], bytes, last);
    cells(width, bytes, bits)
}

// The whole file, and how many bytes it has.
pub fn file(width: u16, bytes: &mut [u8]) -> usize
    requires { (1 ≤ width) × (width ≤ 64) × (1019 ≤ length bytes.old) }
    ensures { Filled (encode (adderOf width)) bytes.old bytes.new result }
{
    let first = copy(&[3], bytes, 0);
    let second = ripple_adder(width, bytes, first);
    let third = full_adder(bytes, second);
    half_adder(bytes, third)
}
