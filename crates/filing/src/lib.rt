// Filing words of bases on shelves: the word's 32 bits go through the written leading-zero counter, and what it counts is the shelf. A
// package above the library: it sees what `shelf` promises, and no crate behind it.
#![tactic(auto)]

mod bases;
mod counter;
mod rows;
mod sequences;
mod shelves;
mod words;

ghost use Rattle.std.specs.Prelude.{◌≡◌, ◌≤◌, ◌<◌, ◌⊎◌, IfOk, IfErr, length};
ghost use Rattle.refusals.specs.Refused.{refusal_at};
ghost use Rattle.meaning.specs.Filing.{shelf_of, first_other, filing_word, filing_sequence};
ghost use Rattle.filing.specs.Running.{Word};
ghost use Rattle.filing.specs.Placing.{placed_of, Sorts};

use crate::bases::first_other;
use crate::counter::counter_file;
use crate::sequences::fill;
use crate::shelves::shelf_at;
use crate::words::run_words;
pub use shelf::Refusal;

// The shelf of a word that is one.
fn shelf_of(word: &[u8]) -> u8
    requires { Word (length word.now) }
    ensures { result ≡ shelf_of word.now }
{
    let file = counter_file();
    let mut bits = [0u8; 32];
    let mut values = [0u8; 32];
    let mut outputs = [0u8; 6];
    run_words(
        &file,
        word,
        word.len(),
        &mut bits,
        &mut values,
        &mut outputs,
    );
    shelf_at(&outputs, 0) as u8
}

// A word has 1 to 16 bases.
fn check_letters(letters: usize) -> Result<(), Refusal>
    ensures fits { IfOk result (λ _. (1 ≤ letters) × (letters ≤ 16)) }
    ensures refusal { IfErr result (λ r. (r ≡ refusal_at 30 0) × ((letters < 1) ⊎ (16 < letters))) }
{
    match letters {
        1..=16 => Ok(()),
        _ => Err(Refusal::at(30, 0)),
    }
}

// Each byte is a base.
fn check_bases(bytes: &[u8]) -> Result<(), Refusal>
    ensures all { IfOk result (λ _. length bytes.now ≤ first_other bytes.now) }
    ensures refusal { IfErr result (λ r. (r ≡ refusal_at 31 (first_other bytes.now)) × (first_other bytes.now < length bytes.now)) }
{
    let place = first_other(bytes);
    if place < bytes.len() {
        return Err(Refusal::at(31, place));
    }
    Ok(())
}

// The shelf of a word of 1 to 16 bases.
pub fn file_word(word: &[u8]) -> Result<u8, Refusal>
    ensures { result ≡ placed_of (filing_word word.now) }
{
    check_letters(word.len())?;
    check_bases(word)?;
    Ok(shelf_of(word))
}

// How many words of a length in a sequence go to each shelf, in a table; and how many words it has.
pub fn file_sequence(sequence: &[u8], letters: usize, table: &mut [u32]) -> Result<usize, Refusal>
    ensures { Sorts (filing_sequence sequence.now letters (length table.old)) table.old table.new result }
{
    check_letters(letters)?;
    if 65535 < sequence.len() {
        return Err(Refusal::at(32, 0));
    }
    if table.len() != 33 {
        return Err(Refusal::at(34, 0));
    }
    check_bases(sequence)?;
    Ok(fill(sequence, letters, table))
}
