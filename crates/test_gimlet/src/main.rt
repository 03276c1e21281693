// Performs the command of each line of standard input, and prints the line in front of what it says. Words are parted by spaces; two
// spaces side by side have an empty word between them. A line `show FILE` prints what a command before it has written.
#![tactic(auto)]

use std::io;
use std::rt::Files;

fn main(rt: HostRuntime) -> io::Result<()> {
    let mut lines = [0u8; 65536];
    let long = streams::read_full(&mut rt.reader(), &mut lines)?;
    perform_all(&rt, &mut lines[..long])
}

// Line after line. A line that does not end is not performed.
fn perform_all(rt: &(impl Files + Input + Print + Eprint), lines: &mut [u8]) -> io::Result<()> {
    for line in lines.split_inclusive_mut(|byte| *byte == b'\n') {
        if line.ends_with(b"\n") {
            perform_line(rt, line)?;
        }
    }
    Ok(())
}

fn perform_line(rt: &(impl Files + Input + Print + Eprint), line: &mut [u8]) -> io::Result<()> {
    rt.write_all(b"> ")?;
    rt.write_all(line)?;
    end_words(line);
    match line {
        [b's', b'h', b'o', b'w', 0, path @ .., _] => show(rt, path),
        _ => command::perform(rt, line),
    }
}

fn show(rt: &(impl Files + Print), path: &[u8]) -> io::Result<()> {
    let Ok(mut file) = streams::open(rt, path) else {
        return rt.write_all(b"no such file\n");
    };
    let mut bytes = [0u8; 65536];
    let long = streams::read_full(&mut file, &mut bytes)?;
    drop(file);
    rt.write_all(&bytes[..long])
}

// A byte of 0 in place of each space and of the line feed.
fn end_words(line: &mut [u8]) {
    for byte in line {
        if matches!(*byte, b' ' | b'\n') {
            *byte = 0;
        }
    }
}
