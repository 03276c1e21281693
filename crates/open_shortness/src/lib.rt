// Whether a file is short, with small numbers: a call on such a file works in short lists and tables, so that it does not pay for clearing
// long ones.
#![tactic(auto)]

ghost use Rattle.std.specs.Prelude.{◌≤◌, ◌<◌, ◌≡◌, true};
ghost use Rattle.open_shortness.specs.Shortness.{Short};

// Of two neighbouring bytes, a number at most 64 unless they could be a number of 512 or more: it takes two bytes from 128 up, and the second is then
// above 3. Without a branch, since which bytes are 128 or more is what a processor cannot foretell.
fn weight(first: u8, second: u8) -> u8
    ensures { result ≤ 64 → 128 ≤ first → second < 4 }
{
    first / 128 * 64 + second / 4
}

// The largest weight is asked for: without a way out of its loop this is many times faster than a search.
pub fn is_short(file: &[u8]) -> bool
    ensures { result ≡ true → Short file.now }
{
    if 1024 < file.len() {
        return false;
    }
    let mut most = 0;
    for i in 1..file.len() {
        let here = weight(file[i - 1], file[i]);
        if most < here {
            most = here;
        }
    }
    most <= 64
}
