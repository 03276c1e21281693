// How the run of a text of rows ended, in words. Lines are counted from 1, bytes and values of a line from 0.
use crate::rows::Texts;
use command_files::failing::{Failure, Outcome};
use command_words::refusing::Explained;
use refusals::Refusal;
use row_lines::Bad;
use rows_file::{Done, Stopped};
use std::io;
use std::num::wrapping_add_u64;

pub fn tell<'a>(
    rt: &impl Print,
    told: bool,
    ended: Result<Done, Stopped>,
    inputs: usize,
    texts: Texts<'a>,
) -> Outcome<'a> {
    match ended {
        Ok(Done { rows, work }) => tell_rows(rt, rows, told, work)?,
        Err(Stopped::Unread) => return Err(Failure::Unread(texts.from)),
        Err(Stopped::Unwritten) => return Err(Failure::Unwritten(texts.to)),
        Err(Stopped::Bad(before, bad)) => tell_bad(rt, before, bad, inputs, texts.from)?,
        Err(Stopped::Long(before)) => tell_long(rt, before, texts.from)?,
        Err(
            Stopped::Refused {
                refusal,
                rows,
                values,
            },
        ) => tell_refused(rt, refusal, rows, values, inputs)?,
    }
    Ok(())
}

fn tell_rows(rt: &impl Print, rows: u64, told: bool, work: u64) -> io::Result<()> {
    println!(rt; "rows {rows}")?;
    if told {
        println!(rt; "work {work}")?;
    }
    Ok(())
}

// The line behind so many.
fn say_failed(rt: &impl Print, before: u64, from: &[u8]) -> io::Result<()> {
    let line = wrapping_add_u64(before, 1);
    print!(rt; "failed: line {line} of ")?;
    rt.write_all(from)
}

fn tell_bad(rt: &impl Print, before: u64, bad: Bad, inputs: usize, from: &[u8]) -> io::Result<()> {
    say_failed(rt, before, from)?;
    match bad {
        Bad::Byte(at) => println!(rt; ": byte {at} is none of 0, 1, 2 and 3, x and z"),
        Bad::Values(count) => {
            println!(rt; ": the count of values is {count}, that of inputs {inputs}")
        }
    }
}

fn tell_long(rt: &impl Print, before: u64, from: &[u8]) -> io::Result<()> {
    say_failed(rt, before, from)?;
    println!(rt; " is longer than 262,143 bytes")
}

// The place of a value that is none is its index in the whole text, and in words its line and its index there.
fn tell_refused(
    rt: &impl Print,
    refusal: Refusal,
    rows: u64,
    values: u64,
    inputs: usize,
) -> io::Result<()> {
    let Refusal { number, place } = refusal;
    let index = wrapping_add_u64(values, place as u64);
    println!(rt; "refused {number} {index}")?;
    if 0 < inputs {
        let line = wrapping_add_u64(wrapping_add_u64(rows, (place / inputs) as u64), 1);
        let explained = Explained(Refusal {
            number,
            place: place % inputs,
        });
        println!(rt; "line {line}: {explained}")?;
    }
    Ok(())
}
