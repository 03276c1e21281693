// Commands that make a file.
use command_files::answered::written;
use command_files::failing::{About, Failure, Outcome};
use command_files::{files, texts};
use refusals::Refusal;
use std::rt::Files;

// Writes a file of a width, as one of the library's writers makes it.
pub fn to_order<'a, F: FnOnce(usize, &mut [u8]) -> Result<usize, Refusal>>(
    rt: &(impl Files + Print),
    writer: F,
    width: &'a [u8],
    path: &'a [u8],
) -> Outcome<'a>
    requires { F.IsAlwaysCallable writer }
{
    let width = texts::number(width)?;
    let mut bytes = [0u8; 65536];
    let made = writer(width as usize, &mut bytes);
    files::write(rt, written(made, &bytes)?, path)
}

// A refusal is told apart by whether it is about the file or about the new one.
pub fn rewrite<'a>(rt: &(impl Files + Input + Print), path: &'a [u8], to: &'a [u8]) -> Outcome<'a> {
    let mut space = [0u8; 65536];
    let file = files::load(rt, path, &mut space)?;
    shelf::check(file)?;
    rewrite_into(rt, file, to)
}

fn rewrite_into<'a>(rt: &(impl Files + Print), file: &[u8], to: &'a [u8]) -> Outcome<'a> {
    let mut bytes = [0u8; 65536];
    let made = shelf::rewrite(file, &mut bytes);
    match written(made, &bytes) {
        Ok(rewritten) => files::write(rt, rewritten, to),
        Err(refusal) => Err(Failure::Refused {
            about: About::Rewritten,
            refusal,
        }),
    }
}

pub fn flatten<'a>(
    rt: &(impl Files + Input + Print),
    path: &'a [u8],
    module: &'a [u8],
    to: &'a [u8],
) -> Outcome<'a> {
    let number = texts::module(rt, path, module)?;
    let mut space = [0u8; 65536];
    let file = files::load(rt, path, &mut space)?;
    flatten_into(rt, file, number, to)
}

fn flatten_into<'a>(
    rt: &(impl Files + Print),
    file: &[u8],
    number: u16,
    to: &'a [u8],
) -> Outcome<'a> {
    let mut scratch = [0u32; 40960];
    let mut bytes = [0u8; 65536];
    let made = shelf::flatten(file, number, &mut scratch, &mut bytes);
    files::write(rt, written(made, &bytes)?, to)
}

// Makes a file from a text in the published list form.
pub fn read<'a>(rt: &(impl Files + Input + Print), path: &'a [u8], to: &'a [u8]) -> Outcome<'a> {
    let mut text = texts::text_buffer();
    let Some(text) = files::load_bytes(rt, path, &mut text) else {
        return Err(Failure::Unread(path));
    };
    read_into(rt, text, to)
}

fn read_into<'a>(rt: &(impl Files + Print), text: &[u8], to: &'a [u8]) -> Outcome<'a> {
    let mut bytes = [0u8; 65536];
    let made = shelf::read_text(text, &mut bytes);
    match written(made, &bytes) {
        Ok(file) => files::write(rt, file, to),
        Err(refusal) => {
            texts::refuse(rt, text, refusal)?;
            Ok(())
        }
    }
}
