// Commands that ask about a file.
use command_files::failing::{Failure, Outcome};
use command_files::{files, texts};
use refusals::Refusal;
use rows_file::front;
use shelf::{Family, Figures};
use std::io;
use std::rt::Files;

pub fn check<'a>(rt: &(impl Files + Input + Print), path: &'a [u8]) -> Outcome<'a> {
    let mut space = [0u8; 65536];
    let file = files::load(rt, path, &mut space)?;
    shelf::check(file)?;
    println!(rt; "ok")?;
    Ok(())
}

pub fn strict<'a>(rt: &(impl Files + Input + Print), path: &'a [u8]) -> Outcome<'a> {
    let mut space = [0u8; 65536];
    let file = files::load(rt, path, &mut space)?;
    shelf::strict_check(file)?;
    println!(rt; "ok")?;
    Ok(())
}

pub fn list<'a>(rt: &(impl Files + Input + Print), path: &'a [u8], family: Family) -> Outcome<'a> {
    let mut space = [0u8; 65536];
    let file = files::load(rt, path, &mut space)?;
    shelf::check(file)?;
    list_file::printing::print(rt, file, family)?;
    Ok(())
}

pub fn count<'a>(
    rt: &(impl Files + Input + Print),
    path: &'a [u8],
    module: &'a [u8],
    family: Family,
) -> Outcome<'a> {
    let number = texts::module(rt, path, module)?;
    let mut space = [0u8; 65536];
    let file = files::load(rt, path, &mut space)?;
    crate::counted::show(rt, count_in(file, number, family)?)?;
    Ok(())
}

// The scratch of a call: no module has more room.
pub(crate) fn count_in(file: &[u8], number: u16, family: Family) -> Result<Figures, Refusal> {
    let mut scratch = [0u32; 40960];
    shelf::count(file, number, family, &mut scratch)
}

// Values and outputs are words of digits; x and z, in either case, are 2 and 3. Any digit is taken for a value; which are good the library
// says. The work is told where it is asked for.
pub fn run<'a>(
    rt: &(impl Files + Input + Print),
    work: bool,
    path: &'a [u8],
    module: &'a [u8],
    values: &'a [u8],
) -> Outcome<'a> {
    if row_lines::first_other(values) != values.len() {
        return Err(Failure::NotValues(values));
    }
    let number = texts::module(rt, path, module)?;
    let mut space = [0u8; 65536];
    let file = files::load(rt, path, &mut space)?;
    run_in(rt, work, file, number, values)
}

fn run_in<'a>(rt: &impl Print, work: bool, file: &[u8], number: u16, word: &[u8]) -> Outcome<'a> {
    let mut scratch = [0u32; 40960];
    let mut values = [0u8; 4096];
    let mut out = [0u8; 192];
    let given = row_lines::put_values(word, &mut values);
    let run = shelf::evaluate(file, number, front(given, &values), &mut scratch, &mut out)?;
    show_outputs(rt, run.written, &mut out)?;
    if work {
        let work = run.work;
        println!(rt; "work {work}")?;
    }
    Ok(())
}

// The first values, as digits.
fn show_outputs(rt: &impl Print, count: usize, out: &mut [u8]) -> io::Result<()> {
    for value in out.iter_mut() {
        *value = b'0' + *value % 10;
    }
    rt.write_all(front(count, out))?;
    println!(rt)
}
