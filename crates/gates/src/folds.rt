// The value of a gate, argument by argument: an operation of two arguments that is repeated over them, and the negation. They work on the
// values 0, 1 and 2, and an argument above 2 counts as unknown. The results of an operation are looked up in a word: a branch on the values
// is what a processor cannot foretell.
ghost use Rattle.std.specs.Prelude.{◌≡◌, ◌≤◌};
ghost use Rattle.meaning.specs.Values.{known, value, code};
ghost use Rattle.gates.specs.Folds.{neutral, step, negation};
ghost use Rattle.gates.specs.Tables.{table_of};

const UNKNOWN: u32 = 2;

// What is asked of the arguments: whether all of them are 1, whether any is, or whether an odd number of them is.
#[derive(Clone, Copy, PartialEq, Eq, Debug)]
pub enum Fold {
    All,
    Any,
    Odd,
}

impl Fold {
    // The answer where there are no arguments.
    pub fn start(self) -> u32
        ensures { result ≡ code (known (neutral self)) }
    {
        match self {
            Fold::All => 1,
            Fold::Any => 0,
            Fold::Odd => 0,
        }
    }

    // The nine results, two bits each: that of a and b stands from bit 8 a + 2 b on.
    pub(crate) fn table(self) -> u32
        ensures { result ≡ table_of self }
    {
        match self {
            Fold::All => 0x28_24_00,
            Fold::Any => 0x26_15_24,
            Fold::Odd => 0x2a_21_24,
        }
    }

    // The answer with one argument more: it was a, and b comes.
    pub fn step(self, a: u32, b: u32) -> u32
        requires { a ≤ 2 }
        ensures { result ≡ code (step self (value a) (value b)) }
    {
        (self.table() >> (8 * a + 2 * coded(b))) % 4
    }
}

// The value that a number stands for as 0, 1 or 2.
pub fn coded(b: u32) -> u32
    ensures { result ≡ code (value b) }
{
    if b < UNKNOWN { b } else { UNKNOWN }
}

// An odd number of 1 and a is one where a is none.
pub fn not(a: u32) -> u32
    ensures { result ≡ code (negation (value a)) }
{
    Fold::Odd.step(1, a)
}
