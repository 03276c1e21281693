// Reads files made here and prints what reading answers: the small rows of document 01 that concern reading, a file of 65,535
// bytes, and the same with one byte more.
#![tactic(auto)]

use read_file::Extent;
use refusals::Refusal;
use std::io;

// Puts a byte at a place, where there is one, and gives the place behind it.
fn put(at: usize, byte: u8, out: &mut [u8]) -> usize {
    if at < out.len() {
        out[at] = byte;
        return at + 1;
    }
    at
}

// An occurrence that drives 192 nets, each written in two bytes, and has no arguments: 388 bytes.
fn put_large(at: usize, out: &mut [u8]) -> usize {
    let mut at = put(put(at, 192, out), 1, out);
    for _ in 0..192 {
        at = put(put(at, 255, out), 127, out);
    }
    put(put(at, 0, out), 0, out)
}

// An occurrence without nets: 3 bytes.
fn put_small(at: usize, out: &mut [u8]) -> usize {
    put(put(put(at, 0, out), 0, out), 0, out)
}

// One module without inputs and outputs, of 168 large occurrences and 115 small ones: 65,535 bytes.
fn put_file(out: &mut [u8]) -> usize {
    let head = put(put(put(put(0, 1, out), 16, out), 0, out), 0, out);
    let mut at = put(put(head, 155, out), 2, out);
    for _ in 0..168 {
        at = put_large(at, out);
    }
    for _ in 0..115 {
        at = put_small(at, out);
    }
    at
}

// Prints an answer as a line.
fn show(rt: &impl Print, reading: Result<Extent, Refusal>) -> io::Result<()> {
    match reading {
        Ok(Extent { modules, numbers }) => println!(rt; "read {modules} {numbers}"),
        Err(Refusal { number, place }) => println!(rt; "refused {number} {place}"),
    }
}

// Reads a file into lists that have room for any, and prints the answer.
fn read(rt: &impl Print, bytes: &[u8], numbers: &mut [u16; 65535]) -> io::Result<()> {
    let mut starts = [0usize; 128];
    let mut offsets = [0usize; 128];
    show(
        rt,
        read_file::read(bytes, numbers, &mut starts, &mut offsets),
    )
}

// Reads a buffer but for its last byte, and then all of it.
fn read_both(rt: &impl Print, bytes: &[u8; 65536], numbers: &mut [u16; 65535]) -> io::Result<()> {
    read(rt, &bytes[..65535], numbers)?;
    read(rt, bytes, numbers)
}

fn main(rt: HostRuntime) -> io::Result<()> {
    let mut numbers = [0u16; 65535];
    read(&rt, b"", &mut numbers)?;
    read(&rt, b"\x00", &mut numbers)?;
    read(&rt, b"\x80\x00", &mut numbers)?;
    read(&rt, b"\x80", &mut numbers)?;
    read(&rt, b"\x00\x00", &mut numbers)?;
    read(&rt, b"\x81\x01", &mut numbers)?;
    let mut bytes = [0u8; 65536];
    let end = put_file(&mut bytes);
    println!(rt; "{end}")?;
    read_both(&rt, &bytes, &mut numbers)
}
