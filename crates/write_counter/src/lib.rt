// The leading-zero counter to order (docs/COUNTER.md): module 32, and the file with its blocks. A place in the list of bytes is
// named after what is to stand there. No number of a counter passes 127: each is a byte as it stands.
#![tactic(auto)]

ghost use Rattle.std.specs.Prelude.{◌≤◌, ◌≡◌, true, [], ◌∷◌, length};
ghost use Rattle.meaning.specs.Layout.{each, occurrence_numbers, module_numbers, encode};
ghost use Rattle.meaning.specs.Counter.{digits as digits_of, join_parts, counter_module, counter as counterOf};
ghost use Rattle.bytes_out.specs.Filled.{Put, Filled};
ghost use Rattle.write_pieces.specs.Rooms.{Room};
ghost use Rattle.write_counter.specs.Shapes.{Shaped};

use write_blocks::choice::choose;
use write_blocks::{bits_of, block_number, blocks};
use write_pieces::bytes::{copy, run};
use write_pieces::rows::{head, row};

// What module 32 of a width comes to: how many occurrences it has, on which net its last count begins, and how many binary digits
// the width has, which is the number of its outputs and of the file's modules.
#[derive(Clone, Copy, PartialEq, Eq, Debug)]
struct Shape {
    occurrences: u8,
    last: u8,
    digits: u8,
}

// How many binary digits a width has.
fn digits_of(width: u8) -> u8
    requires { width ≤ 64 }
    ensures { result ≡ length (digits_of width) }
{
    (u8::BITS - width.leading_zeros()) as u8
}

// The shape at a width, by its digits from the low end. At a digit 1 a part is joined to the `count` bits that count what lies
// below it, on the nets from `below` on.
fn shape_of(width: u8) -> Shape
    requires { width ≤ 64 }
    ensures { Shaped width result }
{
    let digits = digits_of(width);
    let mut count: u8 = 0;
    let mut below = width;
    let mut occurrences: u8 = 0;
    for level in 0..digits {
        if (width >> level) % 2 == 1 {
            occurrences += 1 + 2 * count;
            below += 3 * count;
            count = level + 1;
        }
    }
    Shape {
        occurrences,
        last: below,
        digits,
    }
}

// The part of a digit 1: a block on the next bits, and the choice between its count and the count below.
fn part(level: u8, bits: u8, count: u8, below: u8, bytes: &mut [u8], at: usize) -> usize
    requires { (level ≤ 6) × (bits ≤ 64) × (count ≤ level) × (below ≤ 190) × Room (each occurrence_numbers (join_parts level bits count below (true ∷ []))) bytes.old at }
    ensures { Put (each occurrence_numbers (join_parts level bits count below (true ∷ []))) bytes.old at bytes.new result }
{
    let size = bits_of(level);
    let block = block_number(level);
    let high = below + count;
    let ands = high + count;
    let ors = ands + count;
    let low_bits = copy(&[level + 1], bytes, at);
    let rest = run(high, count, bytes, low_bits);
    let number = run(ors + count, level + 1 - count, bytes, rest);
    let taken = copy(&[block], bytes, number);
    let choice = row(bits, size, bytes, taken);
    choose(ors + level, high, below, ands, ors, count, bytes, choice)
}

// The parts of module 32, from the low end.
fn parts(width: u8, digits: u8, bytes: &mut [u8], at: usize) -> usize
    requires { (width ≤ 64) × (digits ≡ length (digits_of width)) × Room (each occurrence_numbers (counter_module width).occurrences) bytes.old at }
    ensures { Put (each occurrence_numbers (counter_module width).occurrences) bytes.old at bytes.new result }
{
    let mut at = at;
    let mut bits: u8 = 0;
    let mut count: u8 = 0;
    let mut below = width;
    for level in 0..digits {
        if (width >> level) % 2 == 1 {
            at = part(level, bits, count, below, bytes, at);
            bits += bits_of(level);
            below += 3 * count;
            count = level + 1;
        }
    }
    at
}

// Module 32: the bits enter it, and its outputs are the last count.
fn counter_module(width: u8, shape: Shape, bytes: &mut [u8], at: usize) -> usize
    requires { (width ≤ 64) × Shaped width shape × Room (module_numbers (counter_module width)) bytes.old at }
    ensures { Put (module_numbers (counter_module width)) bytes.old at bytes.new result }
{
    let first_part = head(
        32,
        width,
        shape.last,
        shape.digits,
        shape.occurrences,
        bytes,
        at,
    );
    parts(width, shape.digits, bytes, first_part)
}

// The whole file, and how many bytes it has.
pub fn file(width: u8, bytes: &mut [u8]) -> usize
    requires { (1 ≤ width) × (width ≤ 64) × (773 ≤ length bytes.old) }
    ensures { Filled (encode (counterOf width)) bytes.old bytes.new result }
{
    let shape = shape_of(width);
    let first = copy(&[shape.digits], bytes, 0);
    let second = counter_module(width, shape, bytes, first);
    blocks(shape.digits - 1, bytes, second)
}
