// The values that a call is given.
ghost use Rattle.std.specs.Prelude.{◌≡◌};
ghost use Rattle.meaning.specs.Calls.{first_above};

// The highest value: an input that floats.
const FLOATING: u8 = 3;

// The index of the first value above it, or the count of values where there is none.
pub fn first_above(values: &[u8]) -> usize
    ensures { result ≡ first_above values.now }
{
    let mut i = 0;
    while i < values.len() {
        if FLOATING < values[i] {
            return i;
        }
        i += 1;
    }
    i
}
