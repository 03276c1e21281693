// Pieces whose numbers have one byte each.
ghost use Rattle.std.specs.Prelude.{◌+◌, ◌≤◌, ◌^◌, length};
ghost use Rattle.meaning.specs.Adder.{up_from};
ghost use Rattle.bytes_out.specs.Filled.{Put};

// A piece as it stands, byte by byte: pieces are short, and a call that moves memory costs more than they do.
pub fn copy(piece: &[u8], bytes: &mut [u8], at: usize) -> usize
    requires { at + length piece.now ≤ length bytes.old }
    ensures { Put piece.now bytes.old at bytes.new result }
{
    let mut at = at;
    for byte in piece {
        bytes[at] = *byte;
        at += 1;
    }
    at
}

// The numbers from one on, as many as said.
pub fn run(first: u8, count: u8, bytes: &mut [u8], at: usize) -> usize
    requires { (first + count ≤ 2 ^ 8) × (at + count ≤ length bytes.old) }
    ensures { Put (up_from first count) bytes.old at bytes.new result }
{
    let mut at = at;
    for i in 0..count {
        bytes[at] = first + i;
        at += 1;
    }
    at
}
