//! Bytes from a reader into a buffer, and files by names that are bytes.
#![tactic(auto)]

ghost use Rattle.std.specs.Prelude.{ℕ, ◌<◌, ◌≤◌, length, take, IfOk};
ghost use Rattle.std.specs.Io.KnownBytes.{Consumes, IsAtEnd};

use std::fs::{File, OpenOptions};
use std::io::{Error, ErrorKind, Read};
use std::rt::Files;
use std::{fs, io, str};

/// What bytes are read from: the standard input, or a file.
#[derive(Drop)]
pub enum Source<I, F> {
    Input(I),
    File(F),
}

impl<I: Read, F: Read> Read for Source<I, F> {
    ghost use Rattle.streams.specs.Source.{source_remaining};

    ghost remaining = { source_remaining I.remaining F.remaining };

    fn read(&mut self, buf: &mut [u8]) -> io::Result<usize> {
        match self {
            Source::Input(input) => input.read(buf),
            Source::File(file) => file.read(buf),
        }
    }
}

/// Reads until the buffer is full or the input ends, and answers how many bytes stand at the buffer's front. After an error nothing is said
/// of the buffer, nor of how far the source was read.
pub fn read_full<S: Read>(source: &mut S, buffer: &mut [u8]) -> io::Result<usize>
    ensures in_bounds { IfOk result (λ n. n ≤ length buffer.new) }
    ensures bytes { IfOk result (λ n. Consumes (S.remaining source.old) (S.remaining source.new) (take n buffer.new)) }
    ensures end { IfOk result (λ n. n < length buffer.new → IsAtEnd (S.remaining source.new)) }
{
    let mut filled = 0;
    // No count to go through: each read gives as many bytes as it has. `read_exact` says nothing of the bytes in front of an end.
    while filled < buffer.len() {
        let count = source.read(&mut buffer[filled..])?;
        if count == 0 {
            return Ok(filled);
        }
        filled += count;
    }
    Ok(filled)
}

/// Opens a file for reading.
pub fn open<R: Files>(rt: &R, name: &[u8]) -> io::Result<R::File> {
    File::open(rt, text_of(name)?)
}

/// Creates a file for writing, where none has its name.
pub fn create<R: Files>(rt: &R, name: &[u8]) -> io::Result<R::File> {
    OpenOptions::new()
        .write(true)
        .create_new(true)
        .open(rt, text_of(name)?)
}

/// Gives a file another name, also where a file has that one.
pub fn rename(rt: &impl Files, from: &[u8], to: &[u8]) -> io::Result<()> {
    fs::rename(rt, text_of(from)?, text_of(to)?)
}

/// Removes a file.
pub fn remove(rt: &impl Files, name: &[u8]) -> io::Result<()> {
    fs::remove_file(rt, text_of(name)?)
}

// A name as the library wants it. Bytes that are no text name no file that it can reach.
fn text_of(name: &[u8]) -> io::Result<&str> {
    str::from_utf8(name).map_err(|_| Error::from(ErrorKind::InvalidFilename))
}

#[cfg(test)]
mod tests {
    use super::*;
    use std::test::Fail;

    // Gives two bytes a read, and fails after so many reads.
    #[derive(Drop)]
    struct Failing {
        left: u8,
    }

    impl Read for Failing {
        fn read(&mut self, buf: &mut [u8]) -> io::Result<usize> {
            if self.left == 0 {
                return Err(Error::from(ErrorKind::Other));
            }
            self.left -= 1;
            Ok(buf.len().min(2))
        }
    }

    #[test]
    fn reads_until_full(rt: HostRuntime) -> Result<(), Fail> {
        let mut four = [0u8; 4];
        assert_eq!(rt; read_full(&mut Failing { left: 2 }, &mut four)?, 4);
        assert!(rt; read_full(&mut Failing { left: 1 }, &mut four).is_err());
        let mut three: &[u8] = b"abc";
        assert_eq!(rt; read_full(&mut three, &mut four)?, 3);
        Ok(())
    }
}
