// Chip families: a file of sixteen bytes, the delays of the gates in their order.
use command_files::failing::{Failure, Outcome};
use command_files::files;
use command_words::words::parse;
use shelf::Family;
use std::rt::Files;

// The family of a file that was named, where it holds one.
fn named<'a>(rt: &(impl Files + Input), path: &'a [u8]) -> Result<Family, Failure<'a>> {
    let mut bytes = [0u8; 17];
    let Some(bytes) = files::load_bytes(rt, path, &mut bytes) else {
        return Err(Failure::UnreadFile(path));
    };
    if bytes.len() != 16 {
        return Err(Failure::NotAFamily(path));
    }
    Ok(families::of_bytes(bytes))
}

pub fn list<'a>(rt: &(impl Files + Input + Print), chip: &'a [u8], path: &'a [u8]) -> Outcome<'a> {
    crate::asking::list(rt, path, named(rt, chip)?)
}

pub fn count<'a>(
    rt: &(impl Files + Input + Print),
    chip: &'a [u8],
    path: &'a [u8],
    module: &'a [u8],
) -> Outcome<'a> {
    crate::asking::count(rt, path, module, named(rt, chip)?)
}

// What a word says of a gate.
fn delay_in<'a>(word: &'a [u8]) -> Result<u8, Failure<'a>> {
    parse(word)
        .and_then(|number| u8::try_from(number).ok())
        .ok_or(Failure::NotADelay(word))
}

// Writes the delays that words say, sixteen at most, to the file `family`.
pub fn write<'a>(rt: &(impl Files + Print), words: &[&'a [u8]]) -> Outcome<'a> {
    let mut delays = [0u8; 16];
    for (delay, word) in delays.iter_mut().zip(words) {
        *delay = delay_in(word)?;
    }
    files::write(rt, &delays, b"family")
}
