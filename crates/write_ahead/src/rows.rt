// Lists of nets that the adder's modules share.
ghost use Rattle.std.specs.Prelude.{suc, ◌*◌, ◌≤◌, ◌∷◌};
ghost use Rattle.meaning.specs.Layout.{each, list_numbers, occurrence_numbers, number_bytes};
ghost use Rattle.meaning.specs.Adder.{up_from};
ghost use Rattle.bytes_out.specs.Filled.{Put};
ghost use Rattle.write_pieces.specs.Rooms.{Room};
ghost use Rattle.write_ahead.specs.Carries.{ahead_from};

use write_pieces::numbers::{put_list, put_run};

// A module's number, and the list of a carry and of two nets for each bit, these from one on: as the module's inputs, or as what it takes.
pub fn carry_and_bits(
    number: u16,
    width: u16,
    carry: u16,
    first: u16,
    bytes: &mut [u8],
    at: usize,
) -> usize
    requires { (number ≤ 1000) × (width ≤ 64) × (carry ≤ 1000) × (first ≤ 1000) × Room (each number_bytes (number ∷ list_numbers (carry ∷ up_from first (2 * width)))) bytes.old at }
    ensures { Put (each number_bytes (number ∷ list_numbers (carry ∷ up_from first (2 * width)))) bytes.old at bytes.new result }
{
    let bits = put_list(&[number, 2 * width + 1, carry], bytes, at);
    put_run(first, 2 * width, bytes, bits)
}

// The list of the carries behind the bits, on the nets behind that of the carry into the lowest.
pub fn carries(width: u16, carry: u16, bytes: &mut [u8], at: usize) -> usize
    requires { (width ≤ 64) × (carry ≤ 1000) × Room (each number_bytes (list_numbers (up_from (suc carry) width))) bytes.old at }
    ensures { Put (each number_bytes (list_numbers (up_from (suc carry) width))) bytes.old at bytes.new result }
{
    let first = put_list(&[width], bytes, at);
    put_run(carry + 1, width, bytes, first)
}

// The carries by module 41, on the carry into the lowest bit, and on all p and all g from a net on.
pub fn look_ahead(width: u16, carry: u16, first: u16, bytes: &mut [u8], at: usize) -> usize
    requires { (width ≤ 64) × (carry ≤ 1000) × (first ≤ 1000) × Room (each number_bytes (occurrence_numbers (ahead_from width carry first))) bytes.old at }
    ensures { Put (each number_bytes (occurrence_numbers (ahead_from width carry first))) bytes.old at bytes.new result }
{
    let number = carries(width, carry, bytes, at);
    carry_and_bits(41, width, carry, first, bytes, number)
}
