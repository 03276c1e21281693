// A long sequence: its words go through the counter in blocks of up to 1,024, as many as the library takes at once.
ghost use Rattle.std.specs.Prelude.{◌≡◌, map, ◌≤◌, length, replicate};
ghost use Rattle.meaning.specs.Filing.{shelf_of, word_count, words_of, table_of};
ghost use Rattle.filing.specs.Running.{Sequence, Working};

use crate::counter::counter_file;
use crate::words::add_words;

// The most words of a block.
const BLOCK: usize = 1024;

// How many words the next block has, where some are left.
fn block_of(left: usize) -> usize
    requires { 1 ≤ left }
    ensures { (1 ≤ result) × (result ≤ 1024) × (result ≤ left) }
{
    left.min(BLOCK)
}

// How many words of a length a sequence has.
fn count_words(bases: usize, letters: usize) -> usize
    requires { bases ≤ 65535 }
    ensures { result ≡ word_count letters bases }
{
    if letters <= bases {
        bases + 1 - letters
    } else {
        0
    }
}

// The table of a sequence, from a table of 0 on; and how many words the sequence has.
fn add_blocks(
    file: &[u8],
    sequence: &[u8],
    letters: usize,
    bits: &mut [u8],
    values: &mut [u8],
    outputs: &mut [u8],
    table: &mut [u32],
) -> usize
    requires { Working file.now (length sequence.now) letters (length bits.old) (length values.old) (length outputs.old) table.old }
    ensures { (result ≡ word_count letters (length sequence.now))
        × (table.new ≡ table_of (map shelf_of (words_of letters sequence.now))) }
{
    let words = count_words(sequence.len(), letters);
    let mut done = 0;
    // A block is as long as what is left allows: `step_by` would go over the starts, and each turn would work out its end anew.
    while done < words {
        let some = block_of(words - done);
        let end = done + some + letters - 1;
        let used = some * 32;
        add_words(
            file,
            &sequence[done..end],
            letters,
            bits,
            &mut values[..used],
            outputs,
            table,
        );
        done += some;
    }
    words
}

fn clear(table: &mut [u32])
    requires { length table.old ≡ 33 }
    ensures { table.new ≡ replicate 33 0 }
{
    table.fill(0);
}

// The table of a sequence, and how many words it has.
pub fn fill(sequence: &[u8], letters: usize, table: &mut [u32]) -> usize
    requires { Sequence (length sequence.now) letters (length table.old) }
    ensures { (result ≡ word_count letters (length sequence.now))
        × (table.new ≡ table_of (map shelf_of (words_of letters sequence.now))) }
{
    let file = counter_file();
    let mut bits = [0u8; 2078];
    let mut values = [0u8; 32768];
    let mut outputs = [0u8; 6144];
    clear(table);
    add_blocks(
        &file,
        sequence,
        letters,
        &mut bits,
        &mut values,
        &mut outputs,
        table,
    )
}
