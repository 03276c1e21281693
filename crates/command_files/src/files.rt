// Bytes from a file, and bytes to a file.
use crate::failing::{Failure, Outcome};
use rows_file::front;
use std::io;
use std::io::Write;
use std::rt::Files;
use streams::Source;

// Opens a file for reading, or standard input where it is named `-`.
pub fn open<R: Files + Input>(rt: &R, path: &[u8]) -> io::Result<Source<R::Reader, R::File>> {
    if path == b"-".as_slice() {
        return Ok(Source::Input(rt.reader()));
    }
    Ok(Source::File(streams::open(rt, path)?))
}

// Reads a file into a buffer, or a text of lists as the file that it makes.
pub fn load<'a, 'b>(
    rt: &(impl Files + Input),
    path: &'a [u8],
    buffer: &'b mut [u8],
) -> Result<&'b [u8], Failure<'a>> {
    let loaded = if crate::texts::is_text(path) {
        crate::texts::load(rt, path, buffer)
    } else {
        load_bytes(rt, path, buffer)
    };
    loaded.ok_or(Failure::UnreadFile(path))
}

// Reads the bytes of a file as they are, if they can be read. Standard input stays open.
pub fn load_bytes<'a>(
    rt: &(impl Files + Input),
    path: &[u8],
    buffer: &'a mut [u8],
) -> Option<&'a [u8]> {
    let mut source = open(rt, path).ok()?;
    let loaded = streams::read_full(&mut source, buffer);
    drop(source);
    Some(front(loaded.ok()?, buffer))
}

// A path with `.part` behind it, in a buffer; empty where the buffer is too short.
pub fn partial<'a>(path: &[u8], buffer: &'a mut [u8]) -> &'a [u8] {
    let Some(name) = buffer.get_mut(..path.len() + 5) else {
        return &[];
    };
    let (front, back) = name.split_at_mut(path.len());
    front.copy_from_slice(path);
    back.copy_from_slice(b".part");
    name
}

// Writes a file whole: under another name first, which then takes the place of the file. After an error the file is as it was.
pub fn save(rt: &impl Files, path: &[u8], bytes: &[u8]) -> io::Result<()> {
    let mut name = [0u8; 4096];
    save_through(rt, partial(path, &mut name), path, bytes)
}

fn save_through(rt: &impl Files, part: &[u8], path: &[u8], bytes: &[u8]) -> io::Result<()> {
    let mut file = streams::create(rt, part)?;
    let written = file.write_all(bytes);
    drop(file);
    take_place(rt, written, part, path)
}

// A file that was written takes the place of another; or it is removed.
pub fn take_place(
    rt: &impl Files,
    written: io::Result<()>,
    part: &[u8],
    path: &[u8],
) -> io::Result<()> {
    let taken = match written {
        Ok(()) => streams::rename(rt, part, path),
        Err(error) => Err(error),
    };
    if taken.is_err() {
        let _ = streams::remove(rt, part);
    }
    taken
}

// Writes a file, and tells how long it is.
pub fn write<'a>(rt: &(impl Files + Print), bytes: &[u8], path: &'a [u8]) -> Outcome<'a> {
    if save(rt, path, bytes).is_err() {
        return Err(Failure::Unwritten(path));
    }
    let count = bytes.len();
    println!(rt; "written {count}")?;
    Ok(())
}
