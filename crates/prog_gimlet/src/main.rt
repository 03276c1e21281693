// The command `gimlet`: gathers its words into the line that `command` performs.
#![tactic(auto)]

use std::env::FillError;
use std::io;
use std::rt::Env;

fn main(rt: HostRuntime) -> io::Result<()> {
    let mut line = [0u8; 65536];
    let filled = gather(&rt, &mut line);
    command::perform(&rt, rows_file::front(filled, &line))
}

// The words that the program was started with, but for its own name, each with a byte of 0 behind it. Words past the end of the line are
// left out, and one that is longer than 4,096 bytes is taken for an empty one.
fn gather(rt: &impl Env, line: &mut [u8]) -> usize {
    let mut word = [0u8; 4096];
    let mut filled = 0;
    for i in 1..usize::MAX {
        match rt.arg(i, &mut word) {
            Ok(long) => {
                filled = append(&word[..long], line, filled);
            }
            Err(FillError::TooLong) => {
                filled = append(b"", line, filled);
            }
            Err(FillError::NotPresent) => return filled,
        }
    }
    filled
}

// A word and the byte of 0 behind it, where there is room. Answers the place behind them.
fn append(word: &[u8], line: &mut [u8], at: usize) -> usize {
    let Some(rest) = line.get_mut(at..) else {
        return at;
    };
    let Some(place) = rest.get_mut(..word.len() + 1) else {
        return at;
    };
    place[..word.len()].copy_from_slice(word);
    place[word.len()] = 0;
    at + word.len() + 1
}
