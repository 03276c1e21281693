// Pieces whose numbers have one byte or two.
ghost use Rattle.std.specs.Prelude.{◌+◌, ◌≤◌, ◌^◌};
ghost use Rattle.meaning.specs.Lists.{All};
ghost use Rattle.meaning.specs.Ceilings.{Small};
ghost use Rattle.meaning.specs.Layout.{each, number_bytes};
ghost use Rattle.meaning.specs.Adder.{up_from};
ghost use Rattle.bytes_out.specs.Filled.{Put};
ghost use Rattle.write_pieces.specs.Rooms.{Room};

use bytes_out::put;

// The numbers of a list.
pub fn put_list(numbers: &[u16], bytes: &mut [u8], at: usize) -> usize
    requires { All Small numbers.now × Room (each number_bytes numbers.now) bytes.old at }
    ensures { Put (each number_bytes numbers.now) bytes.old at bytes.new result }
{
    let mut at = at;
    for number in numbers {
        at = put(*number, bytes, at);
    }
    at
}

// The numbers from one on, as many as said.
pub fn put_run(first: u16, count: u16, bytes: &mut [u8], at: usize) -> usize
    requires { (first + count ≤ 2 ^ 14) × Room (each number_bytes (up_from first count)) bytes.old at }
    ensures { Put (each number_bytes (up_from first count)) bytes.old at bytes.new result }
{
    let mut at = at;
    for i in 0..count {
        at = put(first + i, bytes, at);
    }
    at
}
