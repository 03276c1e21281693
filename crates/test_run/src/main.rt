// Evaluates modules of stored and of written files and prints a line for each case of the input. There a case is a label, a source, a
// module's number, the values, and the lengths of the scratch and of the output buffer. The source is 0 and a file, 1 and the width of an
// adder, or 2 and that of a counter, which is written first.
#![tactic(auto)]

ghost use Rattle.std.specs.Prelude.{◌≤◌, length, IfOk};

use refusals::Refusal;
use std::io;
use std::io::Read;
use test_cases::{read_number, read_part};

fn main(rt: HostRuntime) -> io::Result<()> {
    let mut file = [0u8; 65536];
    let mut values = [0u8; 256];
    let mut scratch = [0u32; 1024];
    let mut out = [0u8; 256];
    test_cases::each(&mut rt.reader(), |input, label| {
        rt.write_all(label)?;
        let file = read_file(input, &mut file)?;
        let number = read_number(input)?;
        let values = read_part(input, &mut values)?;
        let scratch = front(read_number(input)?, &mut scratch);
        let out = front(read_number(input)?, &mut out);
        let run = call_door::evaluate(file, number, values, scratch, out);
        show(&rt, run.map(|run| run.written), out)
    })
}

// Reads or writes the file of a case at the front of a buffer.
fn read_file<'a>(input: &mut impl Read, buffer: &'a mut [u8]) -> io::Result<&'a [u8]>
    ensures { IfOk result (λ part. length part.now ≤ length buffer.old) }
{
    let source = read_number(input)?;
    if source == 0 {
        return read_part(input, buffer);
    }
    let width = read_number(input)? as usize;
    let made = if source == 1 {
        write_order::adder(width, buffer)
    } else {
        write_order::counter(width, buffer)
    };
    Ok(written(made, buffer))
}

// What was written at the front of a buffer.
fn written<'a>(made: Result<usize, Refusal>, buffer: &'a [u8]) -> &'a [u8]
    ensures { length result.now ≤ length buffer.now }
{
    match made {
        Ok(count) => buffer.get(..count).unwrap_or(&[]),
        Err(Refusal { .. }) => &[],
    }
}

// The front of a buffer; nothing where the buffer is too short.
fn front<'a, T>(count: u16, buffer: &'a mut [T]) -> &'a mut [T]
    ensures { length result.now ≤ length buffer.old }
{
    buffer.get_mut(..count as usize).unwrap_or(&mut [])
}

// The values of the outputs as a word, or the refusal.
fn show(rt: &impl Print, answer: Result<usize, Refusal>, out: &[u8]) -> io::Result<()> {
    match answer {
        Ok(_) => show_word(rt, written(answer, out)),
        Err(Refusal { number, place }) => println!(rt; ": refused {number} {place}"),
    }
}

// Nothing where there are no values.
fn show_word(rt: &impl Print, values: &[u8]) -> io::Result<()> {
    rt.write_all(if values.is_empty() { b":" } else { b": " })?;
    for value in values {
        print!(rt; "{value}")?;
    }
    println!(rt)
}
