// Words of bases on standard input, one a line, to shelves: a line for each word, with its shelf or how it is refused. A line ends with a line
// feed; carriage returns are taken out.
#![tactic(auto)]

use filing::Refusal;
use std::io;
use std::io::Read;

fn main(rt: HostRuntime) -> io::Result<()> {
    let mut bytes = [0u8; 65536];
    let mut word = [0u8; 17];
    file_all(&rt, &mut rt.reader(), &mut bytes, &mut word)
}

// Block after block; no input has so many. The last line need not be ended. Of a line so much is kept as tells whether it is too long.
fn file_all(
    rt: &impl Print,
    input: &mut impl Read,
    bytes: &mut [u8],
    word: &mut [u8],
) -> io::Result<()> {
    let mut filled = 0;
    for _ in 0..u64::MAX {
        let count = input.read(bytes)?;
        if count == 0 {
            return file_last(rt, word, filled);
        }
        filled = file_block(rt, &bytes[..count], word, filled)?;
    }
    Ok(())
}

fn file_last(rt: &impl Print, word: &[u8], filled: usize) -> io::Result<()> {
    if 0 < filled {
        file_line(rt, word, filled)?;
    }
    Ok(())
}

fn file_block(rt: &impl Print, bytes: &[u8], word: &mut [u8], filled: usize) -> io::Result<usize> {
    let mut now = filled;
    for byte in bytes {
        now = take_byte(rt, *byte, word, now)?;
    }
    Ok(now)
}

// A byte of a line, or its end. Answers how many bytes of the line are kept.
fn take_byte(rt: &impl Print, byte: u8, word: &mut [u8], filled: usize) -> io::Result<usize> {
    match byte {
        b'\r' => Ok(filled),
        b'\n' => {
            file_line(rt, word, filled)?;
            Ok(0)
        }
        _ => Ok(keep(byte, word, filled)),
    }
}

fn keep(byte: u8, word: &mut [u8], filled: usize) -> usize {
    if word.len() <= filled {
        return filled;
    }
    word[filled] = byte;
    filled + 1
}

fn file_line(rt: &impl Print, word: &[u8], filled: usize) -> io::Result<()> {
    if word.len() < filled {
        return Ok(());
    }
    show(rt, filing::file_word(&word[0..filled]))
}

fn show(rt: &impl Print, placed: Result<u8, Refusal>) -> io::Result<()> {
    match placed {
        Ok(shelf) => println!(rt; "{shelf}"),
        Err(Refusal { number, place }) => println!(rt; "refused {number} {place}"),
    }
}
