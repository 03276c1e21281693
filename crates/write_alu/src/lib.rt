// The ALU to order (docs/ALU.md): module 48, and the file with the control, the cell and the carry network. A place in the list of bytes is
// named after what is to stand there.
#![tactic(auto)]

ghost use Rattle.std.specs.Prelude.{◌+◌, ◌*◌, ◌≤◌, ◌≡◌, ◌++◌, length};
ghost use Rattle.meaning.specs.Layout.{each, occurrence_numbers, module_numbers, number_bytes, encode};
ghost use Rattle.meaning.specs.Alu.{copy_count, controlled, carry_out, overflows, alu_module, alu};
ghost use Rattle.bytes_out.specs.Filled.{Put, Filled};
ghost use Rattle.write_pieces.specs.Rooms.{Room};
ghost use Rattle.write_alu.specs.Heads.{head_bytes};

use write_ahead::rows::look_ahead;
use write_ahead::{carry_one, carry_two, lookahead};
use write_cells::parts::{cell, control};
use write_cells::rows::{cells, copies};
use write_fast::rows::gate_row;
use write_pieces::bytes::copy;
use write_pieces::gates::Gate;
use write_pieces::numbers::{put_list, put_run};

// How many copies of the control lines there are: none up to width 8, else one for each eight bits that are begun.
#[tactic(auto, unfolding(meaning::specs::Alu::copy_count))]
fn copy_count(width: u16) -> u16
    requires { width ≤ 64 }
    ensures { result ≡ copy_count width }
{
    if width <= 8 { 0 } else { (width + 7) / 8 }
}

// What stands in module 48 in front of its occurrences: its number, its inputs, its outputs, and how many occurrences it has.
fn alu_head(width: u16, copied: u16, bytes: &mut [u8], at: usize) -> usize
    requires { (width ≤ 64) × (copied ≤ 8) × Room (head_bytes width copied) bytes.old at }
    ensures { Put (head_bytes width copied) bytes.old at bytes.new result }
{
    let a = put_list(&[48, 2 * width + 5], bytes, at);
    let b = put_run(0, width + 1, bytes, a);
    let outputs = put_run(width + 2, width + 4, bytes, b);
    let carry = put_list(&[width + 2], bytes, outputs);
    let count = put_run(6 * width + 7, width + 2, bytes, carry);
    put_list(&[2 * width + 4 + 6 * copied], bytes, count)
}

// The control: it drives the six lines, the carry into the network, the bit that is shifted in and the flip, from the carry, the ends of a
// and the operation.
fn control_lines(width: u16, bytes: &mut [u8], at: usize) -> usize
    requires { (width ≤ 64) × Room (each number_bytes (occurrence_numbers (controlled width))) bytes.old at }
    ensures { Put (each number_bytes (occurrence_numbers (controlled width))) bytes.old at bytes.new result }
{
    let lines = put_list(&[9], bytes, at);
    let others = put_run(7 * width + 10, 6, bytes, lines);
    let operation = put_list(
        &[2 * width + 6, width + 1, 7 * width + 9, 49, 7, 0, 1, width],
        bytes,
        others,
    );
    put_run(2 * width + 2, 4, bytes, operation)
}

// Carry and overflow: the last carry, flipped; and whether the last two carries differ.
fn flags(width: u16, bytes: &mut [u8], at: usize) -> usize
    requires { (width ≤ 64) × Room (each number_bytes (occurrence_numbers (carry_out width) ++ occurrence_numbers (overflows width))) bytes.old at }
    ensures { Put (each number_bytes (occurrence_numbers (carry_out width) ++ occurrence_numbers (overflows width))) bytes.old at bytes.new result }
{
    let out = 6 * width + 7;
    let last = 3 * width + 6;
    let flip = 7 * width + 9;
    let xor = Gate::Xor as u16;
    let overflow = put_list(&[1, out, xor, 2, last, flip], bytes, at);
    put_list(&[1, out + 1, xor, 2, last, last - 1], bytes, overflow)
}

// Module 48: the control lines and their copies, the cells, the carries, carry and overflow, and the result.
fn alu_module(width: u16, copied: u16, bytes: &mut [u8], at: usize) -> usize
    requires { (width ≤ 64) × (copied ≤ 8) × Room (each number_bytes (module_numbers (alu_module width copied))) bytes.old at }
    ensures { Put (each number_bytes (module_numbers (alu_module width copied))) bytes.old at bytes.new result }
{
    let carry = 2 * width + 6;
    let p = 3 * width + 7;
    let q = 5 * width + 7;
    let first_line = 7 * width + 10;
    let lines = alu_head(width, copied, bytes, at);
    let again = control_lines(width, bytes, lines);
    let bits = copies(first_line, first_line + 6, copied, bytes, again);
    let carries = cells(width, copied, bytes, bits);
    let outputs = look_ahead(width, carry, p, bytes, carries);
    let result = flags(width, bytes, outputs);
    gate_row(
        Gate::Xor as u16,
        6 * width + 9,
        q,
        carry,
        width,
        bytes,
        result,
    )
}

// The whole file, and how many bytes it has.
pub fn file(width: u16, bytes: &mut [u8]) -> usize
    requires { (1 ≤ width) × (width ≤ 64) × (100 * width + 720 ≤ length bytes.old) }
    ensures { Filled (encode (alu width)) bytes.old bytes.new result }
{
    let copied = copy_count(width);
    let first = copy(&[6], bytes, 0);
    let second = alu_module(width, copied, bytes, first);
    let third = control(bytes, second);
    let fourth = cell(bytes, third);
    let fifth = lookahead(width, bytes, fourth);
    let sixth = carry_two(bytes, fifth);
    carry_one(bytes, sixth)
}
