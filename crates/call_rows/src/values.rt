// The values of a block.
ghost use Rattle.std.specs.Prelude.{◌≡◌};
ghost use Rattle.meaning.specs.Calls.{first_above};
ghost use Rattle.meaning.specs.Figures.{largest};

// The largest value. Without a way out of its loop this is many times faster than a search.
fn largest(values: &[u8]) -> u8
    ensures { result ≡ largest values.now }
{
    let mut most = 0;
    for i in 0..values.len() {
        let x = values[i];
        if most < x {
            most = x;
        }
    }
    most
}

// The index of the first value that is none, or the count of values: where the largest is one, all are.
pub(crate) fn first_above(values: &[u8]) -> usize
    ensures { result ≡ first_above values.now }
{
    let most = [largest(values)];
    if call_evaluate::values::first_above(&most) == 1 {
        return values.len();
    }
    call_evaluate::values::first_above(values)
}
