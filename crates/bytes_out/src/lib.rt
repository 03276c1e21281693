// Where a number becomes bytes: in a lent buffer, at a place. The layout is that of specs/Layout.antt in `meaning`.
#![tactic(auto)]

ghost use Rattle.std.specs.Prelude.{◌+◌, ◌≤◌, length};
ghost use Rattle.meaning.specs.Ceilings.{Small};
ghost use Rattle.meaning.specs.Layout.{number_bytes};
ghost use Rattle.bytes_out.specs.Filled.{Put};

// Writes a number at a place, and gives the place behind it.
pub fn put(n: u16, out: &mut [u8], at: usize) -> usize
    requires { Small n × (at + length (number_bytes n) ≤ length out.old) }
    ensures { Put (number_bytes n) out.old at out.new result }
{
    if n < 128 {
        out[at] = n as u8;
        at + 1
    } else {
        out[at] = (128 + n % 128) as u8;
        out[at + 1] = (n / 128) as u8;
        at + 2
    }
}
