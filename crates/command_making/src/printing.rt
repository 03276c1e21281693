// A file as a text in the published list form, on standard output: all of it, or a module alone, as a list of one.
use command_files::answered::written;
use command_files::failing::Outcome;
use command_files::{files, texts};
use refusals::Refusal;
use std::rt::Files;

pub fn print<'a>(rt: &(impl Files + Input + Print), path: &'a [u8]) -> Outcome<'a> {
    print_wanted(rt, path, None)
}

pub fn print_module<'a>(
    rt: &(impl Files + Input + Print),
    path: &'a [u8],
    module: &'a [u8],
) -> Outcome<'a> {
    let number = texts::module(rt, path, module)?;
    print_wanted(rt, path, Some(number))
}

// All modules, or the one of a number.
fn print_wanted<'a>(
    rt: &(impl Files + Input + Print),
    path: &'a [u8],
    wanted: Option<u16>,
) -> Outcome<'a> {
    let mut space = [0u8; 65536];
    let file = files::load(rt, path, &mut space)?;
    print_of(rt, file, wanted)
}

// A buffer that has room for any file's text.
fn print_of<'a>(rt: &impl Print, file: &[u8], wanted: Option<u16>) -> Outcome<'a> {
    let mut text = [0u8; 393210];
    let made = shelf::print_text(file, &mut text);
    let text = written(made, &text)?;
    match wanted {
        None => rt.write_all(text)?,
        Some(number) => match print_parts::module_list(text, number) {
            Some(list) => show_list(rt, list)?,
            None => {
                let refusal = Refusal {
                    number: 18,
                    place: 0,
                };
                return Err(refusal.into());
            }
        },
    }
    Ok(())
}

fn show_list<'a>(rt: &impl Print, list: &[u8]) -> Outcome<'a> {
    print!(rt; "(")?;
    rt.write_all(list)?;
    println!(rt; ")")?;
    Ok(())
}
