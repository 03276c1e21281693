// A block of rows: taken from the text, run, and written as lines.
use crate::reading::{behind, front, space};
use crate::states::{Progress, Stopped, Task};
use refusals::Refusal;
use row_lines::Block;
use shelf::Run;
use std::io::Write;
use std::num::{wrapping_add_u64, wrapping_add_usize};

// The whole lines that stand in the buffer, at most 1,024.
pub(crate) fn take(task: Task, progress: Progress, buffer: &[u8], values: &mut [u8]) -> Block {
    let text = behind(progress.at, front(progress.filled, buffer));
    row_lines::take_rows(text, 1024, task.inputs, values)
}

// Runs a block, writes its lines, and counts its rows on standard error. Answers how far it is then.
pub(crate) fn run_block(
    rt: &impl Eprint,
    file: &[u8],
    task: Task,
    progress: Progress,
    block: Block,
    values: &[u8],
    out: &mut impl Write,
) -> Result<Progress, Stopped> {
    let mut outputs = space();
    let ran = evaluate(file, task.number, block.rows, values, &mut outputs);
    let run = ran.map_err(|refusal| Stopped::Refused {
        refusal,
        rows: progress.rows,
        values: progress.values,
    })?;
    if !write_lines(task, block.rows, front(run.written, &outputs), out) {
        return Err(Stopped::Unwritten);
    }
    let next = behind_block(progress, block, run.work);
    show_count(rt, next.rows);
    Ok(next)
}

fn evaluate(
    file: &[u8],
    number: u16,
    rows: usize,
    values: &[u8],
    outputs: &mut [u8],
) -> Result<Run, Refusal> {
    let mut scratch = [0u32; 40960];
    evaluate_in(file, number, rows, values, &mut scratch, outputs)
}

fn evaluate_in(
    file: &[u8],
    number: u16,
    rows: usize,
    values: &[u8],
    scratch: &mut [u32; 40960],
    outputs: &mut [u8],
) -> Result<Run, Refusal> {
    shelf::evaluate_rows(file, number, rows, values, scratch, outputs)
}

fn write_lines(task: Task, rows: usize, outputs: &[u8], out: &mut impl Write) -> bool {
    let mut lines = space();
    let long = row_lines::put_lines(outputs, rows, task.outputs, &mut lines);
    out.write_all(front(long, &lines)).is_ok()
}

// The count of rows so far, on standard error. It ends so that what is written next is written over it. The rows go on where it cannot be
// shown.
fn show_count(rt: &impl Eprint, rows: u64) {
    let _ = eprint!(rt; "rows {rows}\r");
}

// The text goes on behind a block.
fn behind_block(progress: Progress, block: Block, work: u32) -> Progress {
    Progress {
        at: wrapping_add_usize(progress.at, block.next),
        filled: progress.filled,
        over: progress.over,
        rows: wrapping_add_u64(progress.rows, block.rows as u64),
        values: wrapping_add_u64(progress.values, block.given as u64),
        work: wrapping_add_u64(progress.work, work as u64),
    }
}
