// Bases: bytes that are the capitals A, C, G and T.
ghost use Rattle.std.specs.Prelude.{◌≡◌};
ghost use Rattle.meaning.specs.Filing.{base, first_other};

// The number of a base; 4 for any other byte. No Option: `base` of `meaning` counts so, and bits are laid of each number with no test.
pub fn base_of(byte: u8) -> u8
    ensures { result ≡ base byte }
{
    match byte {
        b'A' => 0,
        b'C' => 1,
        b'G' => 2,
        b'T' => 3,
        _ => 4,
    }
}

// The index of the first byte that is no base, or the count of bytes where there is none.
pub fn first_other(bytes: &[u8]) -> usize
    ensures { result ≡ first_other bytes.now }
{
    bytes
        .iter()
        .position(|byte| 3 < base_of(*byte))
        .unwrap_or(bytes.len())
}
