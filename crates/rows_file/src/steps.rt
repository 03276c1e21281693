// A text of rows, step by step. It may be longer than any buffer: it is read piece by piece.
use crate::blocks::{run_block, take};
use crate::reading::{front, space};
use crate::states::{Done, Progress, Stopped, Task};
use std::io::{Read, Write};
use std::num::wrapping_add_usize;

pub fn run_text(
    rt: &impl Eprint,
    file: &[u8],
    task: Task,
    text: &mut impl Read,
    out: &mut impl Write,
) -> Result<Done, Stopped> {
    let mut buffer = space();
    run_steps(rt, file, task, text, out, &mut buffer)
}

// Step after step. No text has so many.
fn run_steps(
    rt: &impl Eprint,
    file: &[u8],
    task: Task,
    text: &mut impl Read,
    out: &mut impl Write,
    buffer: &mut [u8],
) -> Result<Done, Stopped> {
    let mut progress = Progress {
        at: 0,
        filled: 0,
        over: false,
        rows: 0,
        values: 0,
        work: 0,
    };
    for _ in 0..u64::MAX {
        match take_step(rt, file, task, progress, text, out, buffer)? {
            Some(next) => progress = next,
            None => {
                return Ok(Done {
                    rows: progress.rows,
                    work: progress.work,
                });
            }
        }
    }
    Err(Stopped::Unread)
}

// A block of the rows that stand in the buffer; where there is none, more of the text. Answers how far it is then, or nothing at the end.
fn take_step(
    rt: &impl Eprint,
    file: &[u8],
    task: Task,
    progress: Progress,
    text: &mut impl Read,
    out: &mut impl Write,
    buffer: &mut [u8],
) -> Result<Option<Progress>, Stopped> {
    let mut values = space();
    let block = take(task, progress, buffer, &mut values);
    if 0 < block.rows {
        let given = front(block.given, &values);
        return run_block(rt, file, task, progress, block, given, out).map(Some);
    }
    match block.bad {
        Some(bad) => Err(Stopped::Bad(progress.rows, bad)),
        None => read_on(progress, text, buffer),
    }
}

// More of the text, behind what is left of it; or the end.
fn read_on(
    progress: Progress,
    text: &mut impl Read,
    buffer: &mut [u8],
) -> Result<Option<Progress>, Stopped> {
    if progress.over {
        return Ok(None);
    }
    let kept = row_lines::carry(buffer, progress.at, progress.filled);
    if buffer.len() <= kept {
        return Err(Stopped::Long(progress.rows));
    }
    let count = streams::read_full(text, &mut buffer[kept..]).map_err(|_| Stopped::Unread)?;
    Ok(Some(read_more(progress, kept, count, buffer)))
}

// Nothing more is read where the text is over; its last line is then ended, if it is not.
fn read_more(progress: Progress, kept: usize, count: usize, buffer: &mut [u8]) -> Progress {
    if count == 0 {
        let filled = row_lines::end_text(buffer, kept);
        return refilled(progress, filled, true);
    }
    refilled(progress, wrapping_add_usize(kept, count), false)
}

fn refilled(progress: Progress, filled: usize, over: bool) -> Progress {
    Progress {
        at: 0,
        filled,
        over,
        ..progress
    }
}
