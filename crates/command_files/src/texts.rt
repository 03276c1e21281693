// Texts in the published list form where a file is asked for: known by the ending of their names, read into the bytes of their file. There a
// module may be asked for by its name, and refusals are said in a designer's terms.
use crate::answered::written;
use crate::failing::{Failure, fail};
use crate::files::load_bytes;
use command_words::refusing::{Explained, rule};
use command_words::words::parse;
use refusals::Refusal;
use rows_file::front;
use std::io;
use std::num::wrapping_add_usize;
use std::rt::Files;

// Room for a text and for one byte more, so that 33 can be told.
pub fn text_buffer() -> [u8; 262145] {
    [0u8; 262145]
}

// Whether a name ends in .lisp, .list or .lsp, in letters of either case.
pub fn is_text(path: &[u8]) -> bool {
    let Some(dot) = path.iter().rposition(|byte| *byte == b'.') else {
        return false;
    };
    let ending = &path[dot + 1..];
    ending.eq_ignore_ascii_case(b"lisp")
        || ending.eq_ignore_ascii_case(b"list")
        || ending.eq_ignore_ascii_case(b"lsp")
}

// The bytes of a text's file. A text that is refused is not read: `cannot_read` says why.
pub(crate) fn load<'a>(
    rt: &(impl Files + Input),
    path: &[u8],
    buffer: &'a mut [u8],
) -> Option<&'a [u8]> {
    let mut text = text_buffer();
    let text = load_bytes(rt, path, &mut text)?;
    written(shelf::read_text(text, buffer), buffer).ok()
}

// A file that was not read; of a text it is said why: it is not there, or it is refused.
pub(crate) fn cannot_read(rt: &(impl Files + Input + Print), path: &[u8]) -> io::Result<()> {
    if !is_text(path) {
        return fail(rt, "cannot read ", path);
    }
    let mut text = text_buffer();
    let Some(text) = load_bytes(rt, path, &mut text) else {
        return fail(rt, "cannot read ", path);
    };
    explain_refusal(rt, text)
}

fn explain_refusal(rt: &impl Print, text: &[u8]) -> io::Result<()> {
    let mut bytes = [0u8; 65536];
    let made = shelf::read_text(text, &mut bytes);
    match written(made, &bytes) {
        Err(refusal) => refuse(rt, text, refusal),
        Ok(_) => Ok(()),
    }
}

// The number of a module that is asked for: in a text by its name, or by its number where none has that name; in a file by its number.
pub fn module<'a>(
    rt: &(impl Files + Input),
    path: &[u8],
    word: &'a [u8],
) -> Result<u16, Failure<'a>> {
    if !is_text(path) {
        return number(word);
    }
    let mut text = text_buffer();
    match load_bytes(rt, path, &mut text) {
        // Any number will do: that there is no such text is said before a module is looked for.
        None => Ok(0),
        Some(text) => module_in(text, word).ok_or(Failure::NoModuleNamed(word)),
    }
}

// Where the text is refused any number will do too.
fn module_in(text: &[u8], word: &[u8]) -> Option<u16> {
    let mut bytes = [0u8; 65536];
    let made = shelf::read_text(text, &mut bytes);
    match written(made, &bytes) {
        Err(_) => Some(0),
        Ok(file) => module_of(text, file, word),
    }
}

fn module_of(text: &[u8], file: &[u8], word: &[u8]) -> Option<u16> {
    match text_words::module_named(text, word) {
        Some(position) => shelf::number_at(file, position).ok().or(parse(word)),
        None => parse(word),
    }
}

// A word that should be a number.
pub fn number<'a>(word: &'a [u8]) -> Result<u16, Failure<'a>> {
    parse(word).ok_or(Failure::NotANumber(word))
}

// A refusal of a text, in words.
pub fn refuse(rt: &impl Print, text: &[u8], refusal: Refusal) -> io::Result<()> {
    let Refusal { number, place } = refusal;
    println!(rt; "refused {number} {place}")?;
    match number {
        25 | 26 => say_line(rt, text, refusal),
        6..=17 => say_module(rt, text, refusal),
        _ => {
            let explained = Explained(refusal);
            println!(rt; "{explained}")
        }
    }
}

// The line and column, both from 1, and the line itself with a caret under the place.
fn say_line(rt: &impl Print, text: &[u8], refusal: Refusal) -> io::Result<()> {
    let Refusal { number, place } = refusal;
    let at = text_lines::line_of(text, place);
    let line = wrapping_add_usize(at.above, 1);
    let column = wrapping_add_usize(at.left, 1);
    let broken = if number == 25 && place == text.len() {
        "the text ends before its list does"
    } else {
        rule(number)
    };
    println!(rt; "line {line}, column {column}: {broken}")?;
    rt.write_all(text_lines::excerpt(text, place))?;
    println!(rt)?;
    rt.write_all(front(text_lines::indent(text, place), &[b' '; 60]))?;
    println!(rt; "^")
}

// The module by its name, and the rule that it breaks; where an occurrence breaks it, which one, and by what.
fn say_module(rt: &impl Print, text: &[u8], refusal: Refusal) -> io::Result<()> {
    let Refusal { number, place } = refusal;
    let broken = match number {
        6 => "it is named like a gate",
        7 => "a later module has the same name",
        _ => rule(number),
    };
    print!(rt; "module ")?;
    rt.write_all(text_words::module_name(text, place))?;
    println!(rt; ": {broken}")?;
    match number {
        11..=14 => fault_line::print(rt, text, number, place),
        _ => Ok(()),
    }
}
