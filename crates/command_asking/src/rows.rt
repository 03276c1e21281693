// A text of rows, run on a module: the files that it is read from and written to. The work is told where it is asked for.
use command_files::failing::{Failure, Outcome};
use command_files::{files, texts};
use rows_file::{Done, Stopped, Task};
use std::io::Read;
use std::rt::Files;

// The texts that rows are read from and that their outputs are written to.
#[derive(Clone, Copy)]
pub struct Texts<'a> {
    pub from: &'a [u8],
    pub to: &'a [u8],
}

// How many inputs the module has is asked first, so that a line with another count of values can be told by its number.
pub fn rows<'a>(
    rt: &(impl Files + Input + Print + Eprint),
    work: bool,
    path: &'a [u8],
    module: &'a [u8],
    texts: Texts<'a>,
) -> Outcome<'a> {
    if path == b"-".as_slice() && path == texts.from {
        return Err(Failure::BothFrom(path));
    }
    let number = texts::module(rt, path, module)?;
    let mut space = [0u8; 65536];
    let file = files::load(rt, path, &mut space)?;
    let figures = crate::asking::count_in(file, number, families::unit())?;
    let task = Task {
        number,
        inputs: figures.inputs as usize,
        outputs: figures.outputs as usize,
    };
    rows_from(rt, work, file, task, texts)
}

fn rows_from<'a>(
    rt: &(impl Files + Input + Print + Eprint),
    work: bool,
    file: &[u8],
    task: Task,
    texts: Texts<'a>,
) -> Outcome<'a> {
    let Ok(mut text) = files::open(rt, texts.from) else {
        return Err(Failure::Unread(texts.from));
    };
    let mut name = [0u8; 4096];
    let part = files::partial(texts.to, &mut name);
    let ended = rows_through(rt, file, task, &mut text, part, texts.to);
    drop(text);
    crate::telling::tell(rt, work, ended, task.inputs, texts)
}

// The lines go to a file of another name, which takes the file's place once all of them are there, and is removed where something is
// wrong.
fn rows_through(
    rt: &(impl Files + Eprint),
    file: &[u8],
    task: Task,
    text: &mut impl Read,
    part: &[u8],
    to: &[u8],
) -> Result<Done, Stopped> {
    let Ok(mut out) = streams::create(rt, part) else {
        return Err(Stopped::Unwritten);
    };
    let ended = rows_file::run_text(rt, file, task, text, &mut out);
    drop(out);
    if ended.is_err() {
        let _ = streams::remove(rt, part);
        return ended;
    }
    if files::take_place(rt, Ok(()), part, to).is_err() {
        return Err(Stopped::Unwritten);
    }
    ended
}
