// The values of a word.
ghost use Rattle.std.specs.Prelude.{◌-◌, ◌≤◌, ◌≡◌, length, take};
ghost use Rattle.list_text.specs.Pieces.{PutDown};
ghost use Rattle.row_lines.specs.Words.{mark_of, first_other, values_of};

// The marks of bytes that stand for no value: a line between groups, and what does not belong in a word.
const GAP: u8 = 10;

const OTHER: u8 = 11;

// The mark of a byte: the value that it stands for, or one of the two.
fn mark_of(byte: u8) -> u8
    ensures { result ≡ mark_of byte }
{
    match byte {
        b'0'..=b'9' => byte - b'0',
        b'X' | b'x' => 2,
        b'Z' | b'z' => 3,
        b'_' => GAP,
        _ => OTHER,
    }
}

// The index of the first byte that does not belong in a word, or the word's length where there is none.
pub fn first_other(word: &[u8]) -> usize
    ensures { result ≡ first_other word.now }
{
    word.iter()
        .position(|byte| mark_of(*byte) == OTHER)
        .unwrap_or(word.len())
}

// How many values a word has.
pub(crate) fn count_values(word: &[u8]) -> usize
    ensures { result ≡ length (values_of word.now) }
{
    let mut values = 0;
    for byte in word {
        if mark_of(*byte) < GAP {
            values += 1;
        }
    }
    values
}

// Puts the values of a word from a place on, as many as there is room for, and answers the place behind them.
pub(crate) fn put_at(word: &[u8], values: &mut [u8], from: usize) -> usize
    requires { from ≤ length values.old }
    ensures { PutDown (take (length values.old - from) (values_of word.now)) values.old from values.new result }
{
    let mut at = from;
    for byte in word {
        let mark = mark_of(*byte);
        if mark < GAP {
            if at == values.len() {
                return at;
            }
            values[at] = mark;
            at += 1;
        }
    }
    at
}

// The values of a word at the front of a buffer, as many as there is room for. Answers how many that is.
pub fn put_values(word: &[u8], values: &mut [u8]) -> usize
    ensures { PutDown (take (length values.old) (values_of word.now)) values.old 0 values.new result }
{
    put_at(word, values, 0)
}
