// Numbers in decimal. Each length has stores of its own, so that no digit waits for the one behind it.
ghost use Rattle.std.specs.Prelude.{◌∷◌, ◌≡◌, ◌+◌, ◌%◌};
ghost use Rattle.meaning.specs.Ceilings.{Small};
ghost use Rattle.meaning.specs.Listing.{decimal};
ghost use Rattle.bytes_out.specs.Filled.{Put};
ghost use Rattle.write_pieces.specs.Rooms.{Room};
ghost use Rattle.ndl_pieces.specs.Digits.{last_digits};

// A number's last digit.
fn digit(n: u16) -> u8
    ensures { result ≡ 48 + n % 10 }
{
    (48 + n % 10) as u8
}

fn put_one(n: u16, out: &mut [u8], at: usize) -> usize
    requires { Room (last_digits 1 n) out.old at }
    ensures { Put (last_digits 1 n) out.old at out.new result }
{
    out[at] = digit(n);
    at + 1
}

// A number's last two digits.
fn put_two(n: u16, out: &mut [u8], at: usize) -> usize
    requires { Room (last_digits 2 n) out.old at }
    ensures { Put (last_digits 2 n) out.old at out.new result }
{
    out[at] = digit(n / 10);
    out[at + 1] = digit(n);
    at + 2
}

fn put_three(n: u16, out: &mut [u8], at: usize) -> usize
    requires { Room (last_digits 3 n) out.old at }
    ensures { Put (last_digits 3 n) out.old at out.new result }
{
    let next = put_one(n / 100, out, at);
    put_two(n, out, next)
}

// A number.
pub(crate) fn put(n: u16, out: &mut [u8], at: usize) -> usize
    requires { Small n × Room (decimal n) out.old at }
    ensures { Put (decimal n) out.old at out.new result }
{
    if n < 10 {
        return put_one(n, out, at);
    }
    if n < 100 {
        return put_two(n, out, at);
    }
    if n < 1000 {
        return put_three(n, out, at);
    }
    if n < 10000 {
        let next = put_two(n / 100, out, at);
        return put_two(n, out, next);
    }
    let next = put_three(n / 100, out, at);
    put_two(n, out, next)
}

// A letter and a number, as nets, modules and occurrences are named.
pub fn put_named(letter: u8, n: u16, out: &mut [u8], at: usize) -> usize
    requires { Small n × Room (letter ∷ decimal n) out.old at }
    ensures { Put (letter ∷ decimal n) out.old at out.new result }
{
    out[at] = letter;
    put(n, out, at + 1)
}
