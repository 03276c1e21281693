// Pieces that are made of nets numbered in a row.
ghost use Rattle.std.specs.Prelude.{◌+◌, ◌≤◌, ◌^◌};
ghost use Rattle.meaning.specs.Layout.{list_numbers, occurrence_numbers};
ghost use Rattle.meaning.specs.Adder.{up_from};
ghost use Rattle.meaning.specs.Counter.{gate_on};
ghost use Rattle.bytes_out.specs.Filled.{Put};
ghost use Rattle.write_pieces.specs.Heads.{head_numbers, row_to_row};
ghost use Rattle.write_pieces.specs.Rooms.{Room};

use crate::bytes::{copy, run};

// Count and list of a row of nets.
pub fn row(first: u8, count: u8, bytes: &mut [u8], at: usize) -> usize
    requires { (first + count ≤ 2 ^ 8) × Room (list_numbers (up_from first count)) bytes.old at }
    ensures { Put (list_numbers (up_from first count)) bytes.old at bytes.new result }
{
    let list = copy(&[count], bytes, at);
    run(first, count, bytes, list)
}

// A gate of two arguments, by the number of its kind: callers name it by a `Gate`, and any number is written as well as one of these.
pub fn gate(net: u8, kind: u8, a: u8, b: u8, bytes: &mut [u8], at: usize) -> usize
    requires { Room (occurrence_numbers (gate_on net kind a b)) bytes.old at }
    ensures { Put (occurrence_numbers (gate_on net kind a b)) bytes.old at bytes.new result }
{
    copy(&[1, net, kind, 2, a, b], bytes, at)
}

// A reference that drives the row of `driven` nets from `drives` on, and takes the row of `taken` nets from `takes` on.
pub fn reference(
    drives: u8,
    driven: u8,
    refers: u8,
    takes: u8,
    taken: u8,
    bytes: &mut [u8],
    at: usize,
) -> usize
    requires { (drives + driven ≤ 2 ^ 8) × (takes + taken ≤ 2 ^ 8) × Room (occurrence_numbers (row_to_row drives driven refers takes taken)) bytes.old at }
    ensures { Put (occurrence_numbers (row_to_row drives driven refers takes taken)) bytes.old at bytes.new result }
{
    let number = row(drives, driven, bytes, at);
    let arguments = copy(&[refers], bytes, number);
    row(takes, taken, bytes, arguments)
}

// What stands in a module in front of its occurrences: its number, its inputs from 0 on, the row of its outputs, and how many
// occurrences it has.
pub fn head(
    number: u8,
    inputs: u8,
    first: u8,
    outputs: u8,
    occurrences: u8,
    bytes: &mut [u8],
    at: usize,
) -> usize
    requires { (first + outputs ≤ 2 ^ 8) × Room (head_numbers number (up_from 0 inputs) (up_from first outputs) occurrences) bytes.old at }
    ensures { Put (head_numbers number (up_from 0 inputs) (up_from first outputs) occurrences) bytes.old at bytes.new result }
{
    let bits = copy(&[number], bytes, at);
    let answers = row(0, inputs, bytes, bits);
    let count = row(first, outputs, bytes, answers);
    copy(&[occurrences], bytes, count)
}
