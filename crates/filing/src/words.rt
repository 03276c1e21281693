// A block of words: laid, and run through the counter.
ghost use Rattle.std.specs.Prelude.{◌≡◌, map, length, take, ◌*◌};
ghost use Rattle.meaning.specs.Filing.{shelf_of, word_count, words_from};
ghost use Rattle.laws.specs.Filing.Counting.{shelves_bytes};
ghost use Rattle.laws.specs.Filing.Tables.{add_each};
ghost use Rattle.filing.specs.Running.{Block, Roomy};

use crate::counter::run_rows;
use crate::rows::lay_words;
use crate::shelves::add_shelves;

// The outputs of the counter for all words of a length in some bases.
pub fn run_words(
    file: &[u8],
    bases: &[u8],
    letters: usize,
    bits: &mut [u8],
    values: &mut [u8],
    outputs: &mut [u8],
)
    requires { Block file.now (length bases.now) letters (length bits.old) (length values.old) (length outputs.old) }
    ensures { take (word_count letters (length bases.now) * 6) outputs.new
        ≡ shelves_bytes (words_from (word_count letters (length bases.now)) letters bases.now) }
{
    lay_words(bases, letters, bits, values);
    run_rows(file, bases.len() + 1 - letters, values, outputs);
}

// One more in the table for each word of a length in some bases.
pub fn add_words(
    file: &[u8],
    bases: &[u8],
    letters: usize,
    bits: &mut [u8],
    values: &mut [u8],
    outputs: &mut [u8],
    table: &mut [u32],
)
    requires block { Block file.now (length bases.now) letters (length bits.old) (length values.old) (length outputs.old) }
    requires roomy { Roomy table.old }
    ensures { table.new
        ≡ add_each (map shelf_of (words_from (word_count letters (length bases.now)) letters bases.now)) table.old }
{
    run_words(file, bases, letters, bits, values, outputs);
    add_shelves(bases.len() + 1 - letters, outputs, table);
}
