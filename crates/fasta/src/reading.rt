// The bytes of a file, block by block.
ghost use Rattle.std.specs.Prelude.{◌≡◌, ℕ, ◌≤◌, List, length, replicate};
ghost use Rattle.fasta.specs.Steps.{State, start, stepped, steps, ended, Kept, Holds};

use crate::lines::{Kind, Line, kind_of};
use crate::records::{Refused, Tally, close_record, file_record, put};

// How far a file is read: the line that is read, how many bases of the record stand in the buffer, and the records before it.
#[derive(Clone, Copy, PartialEq, Eq, Debug)]
pub struct Reading {
    pub line: Line,
    pub filled: usize,
    pub tally: Result<Tally, Refused>,
}

// Nothing is read yet.
pub fn begin() -> Reading
    ensures filled_value { result.filled ≡ 0 }
    ensures by_index { (bases table : List ℕ) → 65536 ≤ length bases → table ≡ replicate 33 0 → Holds start bases table result }
{
    Reading {
        line: Line::Fresh,
        filled: 0,
        tally: Ok(Tally {
            records: 0,
            words: 0,
        }),
    }
}

// One byte more.
fn step(byte: u8, letters: usize, bases: &mut [u8], table: &mut [u64], reading: Reading) -> Reading
    requires { (reading.filled ≤ length bases.old) × (length table.old ≡ 33) }
    ensures filled_in_bounds { result.filled ≤ length bases.old }
    ensures holds { (s : State) → Holds s bases.old table.old reading
        → Holds (stepped letters s byte) bases.new table.new result }
{
    let line = reading.line;
    let filled = reading.filled;
    let tally = reading.tally;
    match kind_of(line, byte) {
        Kind::End => Reading {
            line: Line::Fresh,
            filled,
            tally,
        },
        Kind::Begin => Reading {
            line: Line::Header,
            filled: 0,
            tally: close_record(letters, &bases[..filled], table, tally),
        },
        Kind::Skip => Reading {
            line: Line::Header,
            filled,
            tally,
        },
        Kind::Base => Reading {
            line: Line::Bases,
            filled: put(byte, bases, filled),
            tally,
        },
    }
}

// A block of the file's bytes more.
pub fn read_block(
    bytes: &[u8],
    letters: usize,
    bases: &mut [u8],
    table: &mut [u64],
    reading: Reading,
) -> Reading
    requires { (reading.filled ≤ length bases.old) × (length table.old ≡ 33) }
    ensures filled_in_bounds { result.filled ≤ length bases.old }
    ensures holds { (s : State) → Holds s bases.old table.old reading
        → Holds (steps letters s bytes.now) bases.new table.new result }
{
    let mut now = reading;
    for byte in bytes {
        now = step(*byte, letters, bases, table, now);
    }
    now
}

// The file is over, and its last record complete. It is not handed to `close_record`: filed from two places a record has a function and a stack
// of its own, which a record behind a refusal does not touch.
pub fn finish(
    letters: usize,
    bases: &[u8],
    table: &mut [u64],
    reading: Reading,
) -> Result<Tally, Refused>
    requires { (reading.filled ≤ length bases.now) × (length table.old ≡ 33) }
    ensures { (s : State) → Holds s bases.now table.old reading → Kept (ended letters s) table.new result }
{
    file_record(letters, &bases[..reading.filled], table, reading.tally?)
}
