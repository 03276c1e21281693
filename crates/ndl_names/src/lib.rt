// The sixteen gate names of a listing: which are good, and the first that is bad or used before.
#![tactic(auto)]

ghost use Rattle.std.specs.Prelude.{◌<◌, ◌≡◌, ◌&&◌, leb, length};
ghost use Rattle.meaning.specs.Ndl.{name_at, letters, every, like_module, good_name, same_name, used_in, first_bad};
ghost use Rattle.ndl_names.specs.Kinds.{belongs, spelled};

// What a byte of a name can be.
#[derive(Clone, Copy, PartialEq, Eq, Debug)]
enum Kind {
    Space,
    Digit,
    CapitalOrDigit,
}

fn is_between(b: u8, low: u8, high: u8) -> bool
    ensures { result ≡ (leb low b && leb b high) }
{
    low <= b && b <= high
}

fn is_of(kind: Kind, b: u8) -> bool
    ensures { result ≡ belongs kind b }
{
    match kind {
        Kind::Space => b == b' ',
        Kind::Digit => is_between(b, b'0', b'9'),
        Kind::CapitalOrDigit => {
            if is_between(b, b'A', b'Z') {
                true
            } else {
                is_between(b, b'0', b'9')
            }
        }
    }
}

// Whether all bytes are of a kind.
fn are_of(kind: Kind, bytes: &[u8]) -> bool
    ensures { result ≡ every (belongs kind) bytes.now }
{
    for i in 0..bytes.len() {
        if !is_of(kind, bytes[i]) {
            return false;
        }
    }
    true
}

// How many bytes stand in front of the first space.
pub fn letters(name: &[u8]) -> usize
    ensures { result ≡ length (letters name.now) }
{
    for i in 0..name.len() {
        if name[i] == b' ' {
            return i;
        }
    }
    name.len()
}

// Whether letters are an M and one or more digits.
fn is_like_module(word: &[u8]) -> bool
    ensures { result ≡ like_module word.now }
{
    if word.len() < 2 {
        return false;
    }
    if word[0] != b'M' {
        return false;
    }
    are_of(Kind::Digit, &word[1..])
}

// Whether letters and what stands behind them make a good name.
fn is_spelled(word: &[u8], rest: &[u8]) -> bool
    ensures { result ≡ spelled word.now rest.now }
{
    if word.len() < 1 {
        return false;
    }
    if !are_of(Kind::CapitalOrDigit, word) {
        return false;
    }
    if !are_of(Kind::Space, rest) {
        return false;
    }
    !is_like_module(word)
}

fn is_good(name: &[u8]) -> bool
    ensures { result ≡ good_name name.now }
{
    let count = letters(name);
    is_spelled(&name[..count], &name[count..])
}

// Whether two names are the same.
fn is_same(one: &[u8], other: &[u8]) -> bool
    requires { length one.now ≡ length other.now }
    ensures { result ≡ same_name one.now other.now }
{
    for i in 0..one.len() {
        if one[i] != other[i] {
            return false;
        }
    }
    true
}

// Whether the name at a position is among those before it.
fn is_used(names: &[u8], k: usize) -> bool
    requires { (length names.now ≡ 128) × (k < 16) }
    ensures { result ≡ used_in names.now k (name_at names.now k) }
{
    let name = &names[8 * k..8 * k + 8];
    for j in 0..k {
        if is_same(&names[8 * j..8 * j + 8], name) {
            return true;
        }
    }
    false
}

// The first name that is bad or used before; 16 where all are good.
pub fn first_bad(names: &[u8]) -> usize
    requires { length names.now ≡ 128 }
    ensures { result ≡ first_bad names.now }
{
    for k in 0..16usize {
        if !is_good(&names[8 * k..8 * k + 8]) {
            return k;
        }
        if is_used(names, k) {
            return k;
        }
    }
    16
}
