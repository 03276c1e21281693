// Names as they stand in a text of the list form: the name of the module at a position, the position of the module of a name, and the atoms
// of an occurrence. Lists are found by their brackets, atoms by counting (specs/Seeking.antt); that these are the names of what the text
// lists is a law (specs/Listed.antt).
#![tactic(auto)]

ghost use Rattle.std.specs.Prelude.{◌≡◌, map, ◌+◌, ◌≤◌, ◌<◌, ◌^◌, eqb, length, drop};
ghost use Rattle.meaning.specs.ListForm.{kind_of, capital};
ghost use Rattle.meaning.specs.ListNumbers.{same_name};
ghost use Rattle.text_modes.specs.Modes.{kind_code};
ghost use Rattle.text_modes.specs.Kinds.{if_below};
ghost use Rattle.text_words.specs.Seeking.{going, cursor_after, behind, to_atom, atom_from, Sought, as_written, module_from, occurrence_from, first_named};

use text_modes::{ByteKind, atom_end, kind};
use text_names::capital;

// Where the search for a list stands: whether its opening bracket is met, how many brackets are open, and how many lists of the level are
// still to be passed.
#[derive(Clone, Copy)]
struct Cursor {
    met: bool,
    depth: usize,
    more: usize,
}

impl Cursor {
    // Not at the bracket yet.
    fn going(depth: usize, more: usize) -> Self
        ensures { result ≡ going depth more }
    {
        Self {
            met: false,
            depth,
            more,
        }
    }
}

fn step(b: u8, level: usize, depth: usize, more: usize) -> Cursor
    requires { depth + 1 < 2 ^ 64 }
    ensures { result ≡ cursor_after (kind_code (kind_of b)) level depth more }
{
    match kind(b) {
        ByteKind::Opening if depth != level => Cursor::going(depth + 1, more),
        ByteKind::Opening if more == 0 => Cursor {
            met: true,
            depth,
            more,
        },
        ByteKind::Opening => Cursor::going(depth + 1, more - 1),
        ByteKind::Closing => Cursor::going(depth.saturating_sub(1), more),
        _ => Cursor::going(depth, more),
    }
}

// The place behind the bracket that opens a list: of the lists that are opened where so many brackets are open, the one with so many
// before it. The search begins at a place with some brackets open.
fn behind(text: &[u8], from: usize, level: usize, depth: usize, more: usize) -> usize
    requires from_in_bounds { from ≤ length text.now }
    requires depth_bound { depth ≤ 2 }
    ensures { Sought text.now result (behind level depth more (drop from text.now)) }
{
    let mut cursor = Cursor::going(depth, more);
    for i in from..text.len() {
        cursor = step(text[i], level, cursor.depth, cursor.more);
        if cursor.met {
            return i + 1;
        }
    }
    text.len()
}

// Where the next atom begins.
fn next_atom(text: &[u8], from: usize) -> usize
    requires { from ≤ length text.now }
    ensures { Sought text.now result (to_atom (drop from text.now)) }
{
    for i in from..text.len() {
        if let ByteKind::Letter = kind(text[i]) {
            return i;
        }
    }
    text.len()
}

// Where an atom begins that has so many in front of it from a place on.
fn atom_from(text: &[u8], from: usize, more: usize) -> usize
    requires { from ≤ length text.now }
    ensures { Sought text.now result (atom_from more (drop from text.now)) }
{
    let mut i = next_atom(text, from);
    for _ in 0..more {
        i = next_atom(text, atom_end(text, i));
    }
    i
}

// An atom as it stands, by how many are in front of it from a place on.
pub fn atom_at<'a>(text: &'a [u8], from: usize, more: usize) -> &'a [u8]
    requires { from ≤ length text.now }
    ensures { result.now ≡ as_written (atom_from more (drop from text.now)) }
{
    let start = atom_from(text, from, more);
    let end = atom_end(text, start);
    &text[start..end]
}

// Behind the bracket of the module at a position.
fn module_from(text: &[u8], position: usize) -> usize
    ensures { Sought text.now result (module_from position text.now) }
{
    behind(text, 0, 1, 0, position)
}

// Behind the bracket of an occurrence of that module. The nets that it drives come first, then the name that it refers to, then its arguments.
pub fn occurrence_from(text: &[u8], position: usize, occurrence: usize) -> usize
    ensures { Sought text.now result (occurrence_from position occurrence text.now) }
{
    let from = module_from(text, position);
    behind(text, from, 3, 2, occurrence)
}

// The name of the module at a position.
pub fn module_name<'a>(text: &'a [u8], position: usize) -> &'a [u8]
    ensures { result.now ≡ as_written (atom_from 0 (module_from position text.now)) }
{
    let from = module_from(text, position);
    atom_at(text, from, 0)
}

fn is_alike(one: u8, other: u8) -> bool
    ensures { result ≡ eqb (capital one) (capital other) }
{
    capital(one) == capital(other)
}

// Whether two names are the same, letters of either case alike.
pub fn is_same(one: &[u8], other: &[u8]) -> bool
    ensures { result ≡ same_name (map capital one.now) (map capital other.now) }
{
    if one.len() != other.len() {
        return false;
    }
    for i in 0..one.len() {
        if !is_alike(one[i], other[i]) {
            return false;
        }
    }
    true
}

// The position of the first module that has a name, of the 128 that a text may have.
pub fn module_named(text: &[u8], name: &[u8]) -> Option<usize>
    ensures { result ≡ if_below 128 (first_named 128 0 text.now (map capital name.now)) }
{
    for k in 0..128 {
        if is_same(module_name(text, k), name) {
            return Some(k);
        }
    }
    None
}
