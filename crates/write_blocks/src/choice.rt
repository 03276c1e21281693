// The choice between the count bits of a high and of a low part of a word.
ghost use Rattle.std.specs.Prelude.{◌+◌, ◌≤◌, ◌^◌};
ghost use Rattle.meaning.specs.Layout.{each, occurrence_numbers};
ghost use Rattle.meaning.specs.Counter.{choose as chooseOf};
ghost use Rattle.bytes_out.specs.Filled.{Put};
ghost use Rattle.write_pieces.specs.Rooms.{Room};

use write_pieces::gates::Gate;
use write_pieces::rows::gate;

// For each bit an AND and an OR: the high part's bit or, where the high part is empty, the low one's.
pub fn choose(
    empty: u8,
    high: u8,
    low: u8,
    ands: u8,
    ors: u8,
    count: u8,
    bytes: &mut [u8],
    at: usize,
) -> usize
    requires { (high + count ≤ 2 ^ 8) × (low + count ≤ 2 ^ 8) × (ands + count ≤ 2 ^ 8) × (ors + count ≤ 2 ^ 8) × Room (each occurrence_numbers (chooseOf empty high low ands ors count)) bytes.old at }
    ensures { Put (each occurrence_numbers (chooseOf empty high low ands ors count)) bytes.old at bytes.new result }
{
    let mut at = at;
    for i in 0..count {
        let or = gate(ands + i, Gate::And as u8, empty, low + i, bytes, at);
        at = gate(ors + i, Gate::Or as u8, high + i, ands + i, bytes, or);
    }
    at
}
