// The command `gimlet`, all of it but where its words come from: so that it can be held to stored lines. It decides nothing itself. Each
// answer is one line on standard output; a refusal has a second line that says in words which rule it is and what the place means.
#![tactic(auto)]

use command_asking::rows::Texts;
use command_asking::{asking, chips, rows};
use command_files::failing::{Failure, Outcome, tell};
use command_making::{listing, making, placing, printing, shelves};
use command_words::{help, words};
use std::io;
use std::rt::Files;

// Performs the command of a line, whose words each end with a byte of 0. No command has more words than 17.
pub fn perform(rt: &(impl Files + Input + Print + Eprint), line: &[u8]) -> io::Result<()> {
    let mut space: [&[u8]; 17] = [b""; 17];
    match carry_out(rt, words::split(line, &mut space)) {
        Ok(()) => Ok(()),
        Err(failure) => tell(rt, failure),
    }
}

// The command of a name, by the words that it is asked for in. The commands go by groups, each of which hands on what is none of its own: a proof of
// all in one match would take as long as their number squared.
fn carry_out<'a>(rt: &(impl Files + Input + Print + Eprint), words: &[&'a [u8]]) -> Outcome<'a> {
    match words {
        [b"help"] => print_help(rt),
        [b"check", file] => asking::check(rt, file),
        [b"strict", file] => asking::strict(rt, file),
        [b"list", file] => asking::list(rt, file, list_file::chip::here(rt)),
        [b"list", b"--family", chip, file] => chips::list(rt, chip, file),
        [b"family", delays @ ..] if delays.len() == 16 => chips::write(rt, delays),
        _ => ask(rt, words),
    }
}

// The commands that count and run a module.
fn ask<'a>(rt: &(impl Files + Input + Print + Eprint), words: &[&'a [u8]]) -> Outcome<'a> {
    match words {
        [b"count", file, module] => asking::count(rt, file, module, list_file::chip::here(rt)),
        [b"count", b"--family", chip, file, module] => chips::count(rt, chip, file, module),
        [b"run", file, module, values] => asking::run(rt, false, file, module, values),
        [b"run", b"--work", file, module, values] => asking::run(rt, true, file, module, values),
        [b"rows", file, module, from, to] => {
            rows::rows(rt, false, file, module, Texts { from, to })
        }
        [b"rows", b"--work", file, module, from, to] => {
            rows::rows(rt, true, file, module, Texts { from, to })
        }
        _ => make(rt, words),
    }
}

// Those that make a file of files.
fn make<'a>(rt: &(impl Files + Input + Print), words: &[&'a [u8]]) -> Outcome<'a> {
    match words {
        [b"rewrite", file, out] => making::rewrite(rt, file, out),
        [b"flatten", file, module, out] => making::flatten(rt, file, module, out),
        [b"find", group, house, module] => shelves::find(rt, group, house, module, b""),
        [b"find", group, house, module, out] => shelves::find(rt, group, house, module, out),
        [b"join", group, house, out] => shelves::join(rt, group, house, out),
        _ => order(rt, words),
    }
}

// Those that write a file to order.
fn order<'a>(rt: &(impl Files + Input + Print), words: &[&'a [u8]]) -> Outcome<'a> {
    match words {
        [b"adder", width, out] => making::to_order(
            rt,
            |width, bytes| shelf::adder(width, bytes),
            width,
            out,
        ),
        [b"fast-adder", width, out] => making::to_order(
            rt,
            |width, bytes| shelf::fast_adder(width, bytes),
            width,
            out,
        ),
        [b"alu", width, out] => making::to_order(
            rt,
            |width, bytes| shelf::alu(width, bytes),
            width,
            out,
        ),
        [b"counter", width, out] => making::to_order(
            rt,
            |width, bytes| shelf::counter(width, bytes),
            width,
            out,
        ),
        _ => write(rt, words),
    }
}

// Those that read and write texts, and those that file words.
fn write<'a>(rt: &(impl Files + Input + Print), words: &[&'a [u8]]) -> Outcome<'a> {
    match words {
        [b"ndl", file, out] => listing::ndl(rt, file, out, b""),
        [b"ndl", file, out, names] => listing::ndl(rt, file, out, names),
        [b"read", text, out] => making::read(rt, text, out),
        [b"print", file] => printing::print(rt, file),
        [b"print", file, module] => printing::print_module(rt, file, module),
        [b"file", word] => placing::file(rt, word),
        [b"file-sequence", file, length] => placing::file_sequence(rt, file, length),
        _ => Err(Failure::NoCommand),
    }
}

fn print_help<'a>(rt: &impl Print) -> Outcome<'a> {
    for part in [help::ASKING, help::MAKING, help::FILING, help::WORDS] {
        rt.write_all(part)?;
    }
    Ok(())
}
