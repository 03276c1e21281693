// A net's values in 256 rows: four words of 64 rows, one bit each, whether the value is surely 1, and four whether it may be.
ghost use Rattle.std.specs.Prelude.{◌≡◌};
ghost use Rattle.lanes.specs.Entries.{and_of, or_of, not_of, xor_of, step_of, start_of};

use gates::folds::Fold;

const ONES: u64 = 0xffff_ffff_ffff_ffff;

fn and(a: [u64; 8], b: [u64; 8]) -> [u64; 8]
    ensures { result ≡ and_of a b }
{
    [
        a[0] & b[0],
        a[1] & b[1],
        a[2] & b[2],
        a[3] & b[3],
        a[4] & b[4],
        a[5] & b[5],
        a[6] & b[6],
        a[7] & b[7],
    ]
}

fn or(a: [u64; 8], b: [u64; 8]) -> [u64; 8]
    ensures { result ≡ or_of a b }
{
    [
        a[0] | b[0],
        a[1] | b[1],
        a[2] | b[2],
        a[3] | b[3],
        a[4] | b[4],
        a[5] | b[5],
        a[6] | b[6],
        a[7] | b[7],
    ]
}

pub fn not(a: [u64; 8]) -> [u64; 8]
    ensures { result ≡ not_of a }
{
    [
        a[4] ^ ONES,
        a[5] ^ ONES,
        a[6] ^ ONES,
        a[7] ^ ONES,
        a[0] ^ ONES,
        a[1] ^ ONES,
        a[2] ^ ONES,
        a[3] ^ ONES,
    ]
}

fn xor(a: [u64; 8], b: [u64; 8]) -> [u64; 8]
    ensures { result ≡ xor_of a b }
{
    or(and(a, not(b)), and(not(a), b))
}

// The answer where there are no arguments, and with one argument more.
pub fn start(fold: Fold) -> [u64; 8]
    ensures { result ≡ start_of fold }
{
    match fold {
        Fold::All => [ONES; 8],
        Fold::Any => [0; 8],
        Fold::Odd => [0; 8],
    }
}

pub fn step(fold: Fold, a: [u64; 8], b: [u64; 8]) -> [u64; 8]
    ensures { result ≡ step_of fold a b }
{
    match fold {
        Fold::All => and(a, b),
        Fold::Any => or(a, b),
        Fold::Odd => xor(a, b),
    }
}
