// The line that says which occurrence of a text is at fault where the text is refused with 11 to 14: its position from 1, the nets that it drives,
// and the net or name at fault, all as they stand in the text.
#![tactic(auto)]

ghost use Rattle.std.specs.Prelude.{◌≤◌, length};

use std::io;
use std::num::wrapping_add_u64;
use text_words::atom_at;

// In the module at a position.
pub fn print(rt: &impl Print, text: &[u8], number: u16, position: usize) -> io::Result<()> {
    let fault = call_fault::of(text, position);
    let from = text_words::occurrence_from(text, position, fault.occurrence);
    say(rt, b"occurrence ")?;
    rt.print(wrapping_add_u64(fault.occurrence as u64, 1))?;
    say(rt, b", which drives (")?;
    print_driven(rt, text, from, fault.driven)?;
    say(rt, b"): ")?;
    print_what(rt, number)?;
    say(rt, atom_at(text, from, fault.atom))?;
    say(rt, b"\n")
}

fn say(rt: &impl Print, text: &[u8]) -> io::Result<()> {
    rt.write_all(text)
}

// So many atoms of the occurrence that begins at a place.
fn print_driven(rt: &impl Print, text: &[u8], from: usize, driven: usize) -> io::Result<()>
    requires { from ≤ length text.now }
{
    for i in 0..driven {
        print_gap(rt, i)?;
        say(rt, atom_at(text, from, i))?;
    }
    Ok(())
}

// Between two atoms.
fn print_gap(rt: &impl Print, i: usize) -> io::Result<()> {
    if 0 < i {
        say(rt, b" ")?;
    }
    Ok(())
}

// What is at fault, by the rule that is broken.
fn print_what(rt: &impl Print, number: u16) -> io::Result<()> {
    match number {
        11 => say(rt, b"the net "),
        12 => say(rt, b"the argument "),
        13 => say(rt, b"the name "),
        _ => say(rt, b"the counts of "),
    }
}
