// One part of the text, or one space: where reading goes on, or 25 or 26.
ghost use Rattle.std.specs.Prelude.{◌≡◌, ◌<◌};
ghost use Rattle.text_reader.specs.Loop.{first_state};
ghost use Rattle.text_reader.specs.Reading.{closed, Turnable, Openable, SignAt, AtomAt, NameAt, NetAt, Turned};

use refusals::Refusal;
use text_desk::{Marks, is_full, open, put_name, put_net};
use text_modes::{ByteKind, after, atom_end, kind};
use text_names::{grown, number};

// The mode, the marks on the desk, how many names and nets are known, the root of the module's nets, and how many nodes the tree of
// names has. The mode is as wide as the others: behind a byte the rest of its word would be copied at each part, in pieces for which a
// processor has to wait.
#[derive(Clone, Copy)]
pub struct State {
    pub mode: usize,
    pub marks: Marks,
    pub names: usize,
    pub nets: usize,
    pub root: usize,
    pub count: usize,
}

impl State {
    // In front of a text: the gates are known, and the tree has so many nodes.
    pub fn first(count: usize) -> Self
        ensures { result ≡ first_state count }
    {
        State {
            mode: 0,
            marks: Marks {
                at: 0,
                list: 0,
                body: 0,
            },
            names: 16,
            nets: 0,
            root: 2,
            count,
        }
    }
}

// Where reading goes on, and in which state.
#[derive(Clone, Copy)]
pub struct Turn {
    pub next: usize,
    pub state: State,
}

// `)`: behind a module the next one has nets of its own.
fn close(state: State, mode: usize) -> State
    requires { state.count < 1048576 }
    ensures { result ≡ closed state mode }
{
    if state.mode == 16 {
        return State {
            mode,
            nets: 0,
            root: state.count,
            count: state.count + 1,
            ..state
        };
    }
    State { mode, ..state }
}

// `(`, which leads to a mode.
fn turn_open(
    text: &[u8],
    i: usize,
    mode: usize,
    state: State,
    numbers: &mut [u16],
    tree: &[u32],
) -> Result<Turn, Refusal>
    requires { Openable text.now i mode state numbers.old tree.now }
    ensures { Turned text.now i result numbers.new tree.now }
{
    if is_full(state.mode, numbers, state.marks) {
        return Err(Refusal::at(26, i));
    }
    let marks = open(state.mode, numbers, state.marks);
    Ok(Turn {
        next: i + 1,
        state: State {
            mode,
            marks,
            ..state
        },
    })
}

// The name of a module, which leads to a mode.
fn turn_name(
    text: &[u8],
    i: usize,
    end: usize,
    mode: usize,
    state: State,
    numbers: &mut [u16],
    tree: &mut [u32],
) -> Result<Turn, Refusal>
    requires { NameAt text.now i end mode state numbers.old tree.old }
    ensures { Turned text.now i result numbers.new tree.new }
{
    let given = number(&text[i..end], tree, 1, state.names, state.count);
    let x = given.number;
    if 16384 <= x {
        return Err(Refusal::at(26, i));
    }
    let marks = put_name(x as u16, numbers, state.marks);
    Ok(Turn {
        next: end,
        state: State {
            mode,
            marks,
            names: grown(state.names, x),
            count: given.count,
            ..state
        },
    })
}

// A net, which leads to a mode.
fn turn_net(
    text: &[u8],
    i: usize,
    end: usize,
    mode: usize,
    state: State,
    numbers: &mut [u16],
    tree: &mut [u32],
) -> Result<Turn, Refusal>
    requires { NetAt text.now i end mode state numbers.old tree.old }
    ensures { Turned text.now i result numbers.new tree.new }
{
    let marks = state.marks;
    let list = marks.list;
    if 192 <= numbers[list] {
        return Err(Refusal::at(26, i));
    }
    let given = number(&text[i..end], tree, state.root, state.nets, state.count);
    let x = given.number;
    if 16384 <= x {
        return Err(Refusal::at(26, i));
    }
    let marks = put_net(x as u16, numbers, marks);
    Ok(Turn {
        next: end,
        state: State {
            mode,
            marks,
            nets: grown(state.nets, x),
            count: given.count,
            ..state
        },
    })
}

// An atom.
fn turn_atom(
    text: &[u8],
    i: usize,
    state: State,
    numbers: &mut [u16],
    tree: &mut [u32],
) -> Result<Turn, Refusal>
    requires { AtomAt text.now i state numbers.old tree.old }
    ensures { Turned text.now i result numbers.new tree.new }
{
    let Some(mode) = after(state.mode, ByteKind::Letter) else {
        return Err(Refusal::at(25, i));
    };
    let end = atom_end(text, i);
    if 32 < end - i {
        return Err(Refusal::at(26, i));
    }
    match state.mode {
        3 | 13 => turn_name(text, i, end, mode, state, numbers, tree),
        _ => turn_net(text, i, end, mode, state, numbers, tree),
    }
}

// A sign.
fn turn_sign(
    text: &[u8],
    i: usize,
    part: ByteKind,
    state: State,
    numbers: &mut [u16],
    tree: &[u32],
) -> Result<Turn, Refusal>
    requires { SignAt text.now i part state numbers.old tree.now }
    ensures { Turned text.now i result numbers.new tree.now }
{
    let Some(mode) = after(state.mode, part) else {
        return Err(Refusal::at(25, i));
    };
    if let ByteKind::Opening = part {
        return turn_open(text, i, mode, state, numbers, tree);
    }
    Ok(Turn {
        next: i + 1,
        state: close(state, mode),
    })
}

// One part, or one space.
pub fn take(
    text: &[u8],
    i: usize,
    state: State,
    numbers: &mut [u16],
    tree: &mut [u32],
) -> Result<Turn, Refusal>
    requires { Turnable text.now i state numbers.old tree.old }
    ensures { Turned text.now i result numbers.new tree.new }
{
    let part = kind(text[i]);
    match part {
        ByteKind::Space => Ok(Turn { next: i + 1, state }),
        ByteKind::Letter => turn_atom(text, i, state, numbers, tree),
        ByteKind::Mark | ByteKind::Opening | ByteKind::Closing | ByteKind::Stray => {
            turn_sign(text, i, part, state, numbers, tree)
        }
    }
}
