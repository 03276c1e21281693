// A listing for a board maker.
use command_files::answered::written;
use command_files::failing::{Failure, Outcome};
use command_files::files;
use std::rt::Files;

// The names of docs/NDL.md, which stand in for a file of them.
const NAMES: &[u8; 128] =
    b"BUF     IV      ND2     ND3     ND4     OR2     OR3     OR4     EN      EO      AN2     AN3     AN4     NR2     NR3     NR4     ";

// Without a word for the file of names, `names` is empty.
pub fn ndl<'a>(
    rt: &(impl Files + Input + Print),
    path: &'a [u8],
    to: &'a [u8],
    names: &'a [u8],
) -> Outcome<'a> {
    let mut space = [0u8; 65536];
    let file = files::load(rt, path, &mut space)?;
    if names.is_empty() {
        return ndl_under(rt, file, NAMES, to);
    }
    let mut lent = [0u8; 65536];
    let Some(lent) = files::load_bytes(rt, names, &mut lent) else {
        return Err(Failure::Unread(names));
    };
    ndl_under(rt, file, lent, to)
}

// A buffer that has room for any file's text. It is lent to a function of its own: a proof that cuts so long an array where it is made runs
// out of stack.
fn ndl_under<'a>(
    rt: &(impl Files + Print),
    file: &[u8],
    names: &[u8],
    to: &'a [u8],
) -> Outcome<'a> {
    let mut text = [0u8; 528934];
    ndl_in(rt, file, names, &mut text, to)
}

fn ndl_in<'a>(
    rt: &(impl Files + Print),
    file: &[u8],
    names: &[u8],
    text: &mut [u8; 528934],
    to: &'a [u8],
) -> Outcome<'a> {
    let made = shelf::write_ndl(file, names, text);
    files::write(rt, written(made, text)?, to)
}
