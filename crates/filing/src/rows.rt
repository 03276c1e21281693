// Words laid as rows of values for the counter. The bits of all bases stand once in a list, the last base first; a word's own are a part
// of it, and its row is a copy of 32 of them in which a mask clears those above the word. So a row takes a few operations on
// vectors, and no shifts.
ghost use Rattle.std.specs.Prelude.{◌≡◌, map, ◌++◌, ◌+◌, ◌*◌, ◌≤◌, length, drop};
ghost use Rattle.meaning.specs.Adder.{bit};
ghost use Rattle.meaning.specs.Filing.{word_bits, word_count, words_from};
ghost use Rattle.laws.specs.Filing.Counting.{values_of};
ghost use Rattle.filing.specs.Laying.{mask_of, Masked, Maskable, Rowed, Rowable, Layable};

use crate::bases::base_of;

// The bits of bases, low first: two for each, from the last base to the first.
fn lay_bits(bases: &[u8], bits: &mut [u8])
    requires { 2 * length bases.now ≤ length bits.old }
    ensures { bits.new ≡ map bit (word_bits bases.now) ++ drop (2 * length bases.now) bits.old }
{
    let count = bases.len();
    for i in 0..count {
        let base = base_of(bases[count - 1 - i]);
        bits[2 * i] = base % 2;
        bits[2 * i + 1] = base / 2 % 2;
    }
}

// A mask of 32 bytes that keeps the first of them.
fn mask_of(kept: usize) -> [u8; 32]
    requires { kept ≤ 32 }
    ensures { result ≡ mask_of kept }
{
    let mut mask = [0u8; 32];
    mask[..kept].fill(255);
    mask
}

// 32 bits from a place on, of which the mask keeps the first. They stand in an array of their own: no store into that can change where the bits
// stand, so that the compiler makes operations on vectors of it.
fn masked(bits: &[u8], from: usize, mask: &[u8; 32]) -> [u8; 32]
    requires { from + 32 ≤ length bits.now }
    ensures { Masked bits.now from mask.now result }
{
    let mut row = [0u8; 32];
    for j in 0..32 {
        row[j] = bits[from + j] & mask[j];
    }
    row
}

// A row.
fn lay_row(bits: &[u8], from: usize, mask: &[u8; 32], row: &mut [u8])
    requires { Maskable (length bits.now) from (length row.old) }
    ensures { Masked bits.now from mask.now row.new }
{
    row.copy_from_slice(&masked(bits, from, mask));
}

// A row for each word, the first word's from the end of the list.
fn lay_rows(count: usize, bits: &[u8], mask: &[u8; 32], values: &mut [u8])
    requires { Rowable count (length bits.now) (length values.old) }
    ensures { Rowed count bits.now mask.now count values.new }
{
    let mut from = 2 * count;
    for i in 0..count {
        from -= 2;
        let at = i * 32;
        let end = at + 32;
        lay_row(bits, from, mask, &mut values[at..end]);
    }
}

// The rows of all words of a length in some bases.
pub fn lay_words(bases: &[u8], letters: usize, bits: &mut [u8], values: &mut [u8])
    requires { Layable (length bases.now) letters (length bits.old) (length values.old) }
    ensures { values.new ≡ values_of (words_from (word_count letters (length bases.now)) letters bases.now) }
{
    lay_bits(bases, bits);
    let mask = mask_of(2 * letters);
    lay_rows(bases.len() + 1 - letters, bits, &mask, values);
}
