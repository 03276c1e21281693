// Lent lists of numbers: cleared, copied, and the larger of two entries.
ghost use Rattle.std.specs.Prelude.{◌≡◌, ◌++◌, ◌+◌, ◌≤◌, max, length, drop, replicate};
ghost use Rattle.std.proofs.Math.Seq.{paste};

// The larger of two.
pub fn larger(a: u32, b: u32) -> u32
    ensures { result ≡ max a b }
{
    if a < b { b } else { a }
}

// The first entries become 0.
pub fn clear(entries: usize, scratch: &mut [u32])
    requires { entries ≤ length scratch.old }
    ensures { scratch.new ≡ replicate entries 0 ++ drop entries scratch.old }
{
    for i in 0..entries {
        scratch[i] = 0;
    }
}

// The entries of `source` from `from` on, so many of them, stand in `target` from `at` on.
pub fn copy(source: &[u32], from: usize, count: usize, target: &mut [u32], at: usize)
    requires count_in_bounds { from + count ≤ length source.now }
    requires count_in_bounds_2 { at + count ≤ length target.old }
    ensures { target.new ≡ paste target.old at (drop from source.now) count }
{
    for i in 0..count {
        target[at + i] = source[from + i];
    }
}
