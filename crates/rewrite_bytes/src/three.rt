// Three gates in place of a withdrawn one.
ghost use Rattle.std.specs.Prelude.{◌≡◌};
ghost use Rattle.meaning.specs.Layout.{each};
ghost use Rattle.meaning.specs.Withdrawn.{withdrawn, pair_kind, two_kind, three_gates};
ghost use Rattle.laws.specs.Written.{occurrence_bytes};
ghost use Rattle.bytes_out.specs.Filled.{Put};
ghost use Rattle.rewrite_bytes.specs.Bodies.{Replacing, gate_of};

// One of the four gates: its number, the net that it drives and its four arguments.
#[derive(Clone, Copy)]
pub struct Gate {
    pub kind: u16,
    pub net: u16,
    pub a: u16,
    pub b: u16,
    pub c: u16,
    pub d: u16,
}

// The gate of two inputs that takes a pair of the arguments.
#[tactic(auto, unfolding(meaning::specs::Withdrawn::pair_kind))]
fn pair_kind(kind: u16) -> u16
    ensures { result ≡ pair_kind kind }
{
    if kind == 7 {
        return 5;
    }
    if kind == 15 {
        return 5;
    }
    10
}

// The gate of two inputs of the same kind.
fn two_kind(kind: u16) -> u16
    ensures { result ≡ two_kind kind }
{
    if kind == 4 {
        return 2;
    }
    if kind == 7 {
        return 5;
    }
    if kind == 12 {
        return 10;
    }
    13
}

// The three gates, with the first and the second new net.
pub fn put_three(gate: Gate, first: u16, second: u16, out: &mut [u8], at: usize) -> usize
    requires { Replacing gate first second out.old at }
    ensures { Put (each occurrence_bytes (three_gates first second (gate_of gate))) out.old at out.new result }
{
    let pair = pair_kind(gate.kind);
    let two = two_kind(gate.kind);
    let numbers = [
        1, first, pair, 2, gate.a, gate.b, 1, second, pair, 2, gate.c, gate.d, 1, gate.net, two, 2,
        first, second,
    ];
    write_pieces::numbers::put_list(&numbers, out, at)
}
