// A file of bases, plain or in FASTA, read from a source and filed. What its bytes come to is worked out by `fasta`; here they are only
// read.
#![tactic(auto)]

ghost use Rattle.std.specs.Prelude.{◌≡◌, length};

use fasta::{Refused, Tally};
use std::io::Read;

// Why a file is not filed.
#[derive(Clone, Copy, PartialEq, Eq, Debug)]
pub enum Stopped {
    Refused(Refused),
    Unread,
}

// Files the words of a length in each record, and adds their counts to a table of 0.
pub fn file_from(
    source: &mut impl Read,
    letters: usize,
    table: &mut [u64],
) -> Result<Tally, Stopped>
    requires { length table.old ≡ 33 }
{
    let mut bytes = [0u8; 65536];
    let mut bases = [0u8; 65536];
    read_blocks(source, letters, &mut bytes, &mut bases, table)
}

// Block after block. No file has so many.
fn read_blocks(
    source: &mut impl Read,
    letters: usize,
    bytes: &mut [u8],
    bases: &mut [u8],
    table: &mut [u64],
) -> Result<Tally, Stopped>
    requires { length table.old ≡ 33 }
{
    let mut reading = fasta::begin();
    for _ in 0..u64::MAX {
        let count = source.read(bytes).map_err(|_| Stopped::Unread)?;
        if count == 0 {
            return fasta::finish(letters, bases, table, reading).map_err(Stopped::Refused);
        }
        reading = fasta::read_block(&bytes[..count], letters, bases, table, reading);
    }
    Err(Stopped::Unread)
}
