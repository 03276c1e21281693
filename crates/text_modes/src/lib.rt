// What the bytes of a text are; the stages of reading as numbers; and where an atom ends. A stage's number is a place in tables, and its
// width is that of a word: see `text_reader`.
#![tactic(auto)]

ghost use Rattle.std.specs.Prelude.{◌≡◌, ◌+◌, ◌≤◌, ◌<◌, length, drop};
ghost use Rattle.meaning.specs.ListForm.{kind_of};
ghost use Rattle.meaning.specs.ListCall.{word};
ghost use Rattle.text_modes.specs.Modes.{mode_after};
ghost use Rattle.text_modes.specs.Kinds.{byte_kind, code_of, if_below};

// What a byte of a text is: the quote mark, a bracket, one that may stand nowhere, one of an atom, or a space or line end.
#[derive(Clone, Copy, PartialEq, Eq, Debug)]
pub enum ByteKind {
    Mark,
    Opening,
    Closing,
    Stray,
    Letter,
    Space,
}

// By a match, which is compiled to comparisons: a table would be laid on the stack at each call.
pub fn kind(b: u8) -> ByteKind
    ensures { result ≡ byte_kind (kind_of b) }
{
    match b {
        b'\'' => ByteKind::Mark,
        b'(' => ByteKind::Opening,
        b')' => ByteKind::Closing,
        b'-' | b'0'..=b'9' | b'A'..=b'Z' | b'a'..=b'z' => ByteKind::Letter,
        b' ' | b'\n' | b'\r' => ByteKind::Space,
        _ => ByteKind::Stray,
    }
}

// The mode behind `(`.
fn after_open(mode: usize) -> usize
    requires { mode < 19 }
    ensures { result ≡ mode_after mode 1 }
{
    match mode {
        0 => 2,
        1 => 2,
        2 => 3,
        4 => 5,
        6 => 7,
        8 => 9,
        9 => 10,
        10 => 11,
        12 => 13,
        _ => 18,
    }
}

// The mode behind `)`.
fn after_close(mode: usize) -> usize
    requires { mode < 19 }
    ensures { result ≡ mode_after mode 2 }
{
    match mode {
        2 => 17,
        5 => 6,
        7 => 8,
        9 => 16,
        11 => 12,
        14 => 15,
        15 => 9,
        16 => 2,
        _ => 18,
    }
}

// The mode behind an atom.
fn after_atom(mode: usize) -> usize
    requires { mode < 19 }
    ensures { result ≡ mode_after mode 4 }
{
    match mode {
        3 => 4,
        5 => 5,
        7 => 7,
        11 => 11,
        13 => 14,
        14 => 14,
        _ => 18,
    }
}

// The mode that a part leads to; 18 where it may not stand.
fn next_mode(mode: usize, part: ByteKind) -> usize
    requires { mode < 19 }
    ensures { result ≡ mode_after mode (code_of part) }
{
    match part {
        ByteKind::Opening => after_open(mode),
        ByteKind::Closing => after_close(mode),
        ByteKind::Letter => after_atom(mode),
        ByteKind::Mark => { if mode == 0 { 1 } else { 18 } }
        ByteKind::Stray | ByteKind::Space => 18,
    }
}

// The mode that a part leads to, if it may stand there.
pub fn after(mode: usize, part: ByteKind) -> Option<usize>
    requires { mode < 19 }
    ensures { result ≡ if_below 18 (mode_after mode (code_of part)) }
{
    let next = next_mode(mode, part);
    (next < 18).then_some(next)
}

// The place behind the atom that begins at a place.
pub fn atom_end(text: &[u8], from: usize) -> usize
    requires { from ≤ length text.now }
    ensures { result ≡ from + length (word (drop from text.now)) }
{
    for i in from..text.len() {
        let ByteKind::Letter = kind(text[i]) else {
            return i;
        };
    }
    text.len()
}
