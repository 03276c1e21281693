// Rows of gates.
ghost use Rattle.std.specs.Prelude.{◌+◌, ◌≤◌};
ghost use Rattle.meaning.specs.Layout.{each, occurrence_numbers, number_bytes};
ghost use Rattle.meaning.specs.FastAdder.{gate_row};
ghost use Rattle.bytes_out.specs.Filled.{Put};
ghost use Rattle.write_pieces.specs.Rooms.{Room};

use write_pieces::numbers::put_list;

// The same gate at each bit, by the number of its kind, the three nets one further each time: callers name it by a `Gate`, and any number up
// to 15 is written as well as one of these.
pub fn gate_row(
    kind: u16,
    net: u16,
    a: u16,
    b: u16,
    count: u16,
    bytes: &mut [u8],
    at: usize,
) -> usize
    requires { (kind ≤ 15) × (net + count ≤ 1000) × (a + count ≤ 1000) × (b + count ≤ 1000) × Room (each number_bytes (each occurrence_numbers (gate_row kind net a b count))) bytes.old at }
    ensures { Put (each number_bytes (each occurrence_numbers (gate_row kind net a b count))) bytes.old at bytes.new result }
{
    let mut at = at;
    for i in 0..count {
        at = put_list(&[1, net + i, kind, 2, a + i, b + i], bytes, at);
    }
    at
}
