// A group's file before the house's: find and join.
use command_files::failing::{About, Failure, Outcome};
use command_files::{files, texts};
use rows_file::front;
use shelf::{Looked, ShelfRefusal, Stretch, Which};
use std::io;
use std::rt::Files;

// Whose file a refusal is about; `otherwise` where it is about neither.
fn about(which: Which, otherwise: About) -> About {
    match which {
        Which::Neither => otherwise,
        Which::Group => About::Group,
        Which::House => About::House,
    }
}

// Whose file the module is in, and where.
fn say_found(rt: &impl Print, looked: Looked) -> io::Result<()> {
    match looked {
        Looked::Group(Stretch { start, length }) => {
            println!(rt; "the group's file has it: {length} bytes from byte {start}")
        }
        Looked::House(Stretch { start, length }) => {
            println!(rt; "the house's file has it: {length} bytes from byte {start}")
        }
    }
}

// A file of one module: a count of 1, and its bytes. It is empty where the buffer is too short.
fn one_module<'a>(part: &[u8], bytes: &'a mut [u8]) -> &'a [u8] {
    let Some(file) = bytes.get_mut(..part.len() + 1) else {
        return &[];
    };
    file[0] = 1;
    file[1..].copy_from_slice(part);
    file
}

fn keep_part<'a>(rt: &(impl Files + Print), part: &[u8], to: &'a [u8]) -> Outcome<'a> {
    let mut bytes = [0u8; 65536];
    files::write(rt, one_module(part, &mut bytes), to)
}

// Both files are read, the group's first. Without a word for the file to write, `to` is empty.
pub fn find<'a>(
    rt: &(impl Files + Input + Print),
    group: &'a [u8],
    house: &'a [u8],
    module: &'a [u8],
    to: &'a [u8],
) -> Outcome<'a> {
    let number = texts::number(module)?;
    let mut own = [0u8; 65536];
    let own = files::load(rt, group, &mut own)?;
    let mut others = [0u8; 65536];
    let others = files::load(rt, house, &mut others)?;
    let looked = shelf::which_shelf(own, others, number);
    let found = looked.map_err(|found: ShelfRefusal| Failure::Refused {
        about: about(found.which, About::Asked),
        refusal: found.refusal,
    })?;
    say_found(rt, found)?;
    if to.is_empty() {
        return Ok(());
    }
    keep_part(rt, shelf::look_up(own, others, number), to)
}

pub fn join<'a>(
    rt: &(impl Files + Input + Print),
    group: &'a [u8],
    house: &'a [u8],
    to: &'a [u8],
) -> Outcome<'a> {
    let mut own = [0u8; 65536];
    let own = files::load(rt, group, &mut own)?;
    let mut others = [0u8; 65536];
    let others = files::load(rt, house, &mut others)?;
    join_into(rt, own, others, to)
}

fn join_into<'a>(
    rt: &(impl Files + Print),
    group: &[u8],
    house: &[u8],
    to: &'a [u8],
) -> Outcome<'a> {
    let mut bytes = [0u8; 65536];
    match shelf::join(group, house, &mut bytes) {
        Ok(count) => files::write(rt, front(count, &bytes), to),
        Err(ShelfRefusal { which, refusal }) => Err(Failure::NotJoined {
            about: about(which, About::Joined),
            refusal,
        }),
    }
}
