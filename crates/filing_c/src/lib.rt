// The C face of filing: each public function of `filing` under its name. A slice is a pointer and a length. The result is 0 for an answer
// or the number of the refusal; further results are written through pointers. include/filing.h says it all in C's words.
#![tactic(auto)]

ghost use Rattle.std.specs.Prelude.{◌≡◌, length};
ghost use Rattle.meaning.specs.Calls.{number_of, place_of};
ghost use Rattle.meaning.specs.Filing.{filing_word, filing_sequence, table_after};
ghost use Rattle.filing_c.specs.Results.{shelf_after, words_after};

#[unsafe(no_mangle)]
pub extern "C" fn filing_word(word: &[u8], shelf: &mut u8, place: &mut usize) -> u16
    ensures value { result ≡ number_of (filing_word word.now) }
    ensures shelf_after { shelf.new ≡ shelf_after (filing_word word.now) shelf.old }
    ensures place_after { place.new ≡ place_of (filing_word word.now) }
{
    match filing::file_word(word) {
        Ok(found) => {
            *shelf = found;
            *place = 0;
            0
        }
        Err(refusal) => {
            *place = refusal.place;
            refusal.number
        }
    }
}

#[unsafe(no_mangle)]
pub extern "C" fn filing_sequence(
    sequence: &[u8],
    letters: usize,
    table: &mut [u32],
    words: &mut usize,
    place: &mut usize,
) -> u16
    ensures value { result ≡ number_of (filing_sequence sequence.now letters (length table.old)) }
    ensures table_after { table.new ≡ table_after (filing_sequence sequence.now letters (length table.old)) table.old }
    ensures words_after { words.new ≡ words_after (filing_sequence sequence.now letters (length table.old)) words.old }
    ensures place_after { place.new ≡ place_of (filing_sequence sequence.now letters (length table.old)) }
{
    match filing::file_sequence(sequence, letters, table) {
        Ok(count) => {
            *words = count;
            *place = 0;
            0
        }
        Err(refusal) => {
            *place = refusal.place;
            refusal.number
        }
    }
}
