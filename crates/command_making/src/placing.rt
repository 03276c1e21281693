// Commands that file words of bases on shelves.
use command_files::failing::{About, Failure, Outcome};
use command_files::{files, texts};
use fasta::Refused;
use fasta_file::Stopped;
use std::rt::Files;

// The shelf of a word.
pub fn file<'a>(rt: &impl Print, word: &'a [u8]) -> Outcome<'a> {
    let shelf = filing::file_word(word)?;
    println!(rt; "{shelf}")?;
    Ok(())
}

// How many words of a file's records go to each shelf.
pub fn file_sequence<'a>(
    rt: &(impl Files + Input + Print),
    path: &'a [u8],
    letters: &'a [u8],
) -> Outcome<'a> {
    let letters = texts::number(letters)?;
    let Ok(mut source) = files::open(rt, path) else {
        return Err(Failure::UnreadFile(path));
    };
    let mut table = [0u64; 33];
    let filed = fasta_file::file_from(&mut source, letters as usize, &mut table);
    drop(source);
    match filed {
        Ok(tally) => bars::print(rt, &table, tally.words)?,
        Err(Stopped::Unread) => return Err(Failure::UnreadFile(path)),
        Err(Stopped::Refused(refused)) => return Err(refused_in(refused)),
    }
    Ok(())
}

// A refusal, with the record that it is about where there is a header in front of it.
fn refused_in<'a>(refused: Refused) -> Failure<'a> {
    let Refused { refusal, before } = refused;
    let about = if 0 < before && refusal.number != 30 {
        About::Record(before)
    } else {
        About::Asked
    };
    Failure::Refused { about, refusal }
}
