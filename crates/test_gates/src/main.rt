// Prints the value of each of the sixteen gates on all combinations of 0 to 3: a line for each, the gates in order and their
// arguments counted up, the last one fastest. The values are those that a run of a module finds.
#![tactic(auto)]

ghost use Rattle.std.specs.Prelude.{◌≤◌, length};

use gates::Kind;
use std::io;

fn main(rt: HostRuntime) -> io::Result<()> {
    rows(&rt, 0, b"B-BUF", 1)?;
    rows(&rt, 1, b"B-NOT", 1)?;
    rows(&rt, 2, b"B-NAND", 2)?;
    rows(&rt, 3, b"B-NAND3", 3)?;
    rows(&rt, 4, b"B-NAND4", 4)?;
    rows(&rt, 5, b"B-OR", 2)?;
    rows(&rt, 6, b"B-OR3", 3)?;
    rows(&rt, 7, b"B-OR4", 4)?;
    rows(&rt, 8, b"B-EQV", 2)?;
    rows(&rt, 9, b"B-XOR", 2)?;
    rows(&rt, 10, b"B-AND", 2)?;
    rows(&rt, 11, b"B-AND3", 3)?;
    rows(&rt, 12, b"B-AND4", 4)?;
    rows(&rt, 13, b"B-NOR", 2)?;
    rows(&rt, 14, b"B-NOR3", 3)?;
    rows(&rt, 15, b"B-NOR4", 4)
}

// The lines of a gate. A line's arguments are the last digits of its place, written in base four.
fn rows(rt: &impl Print, number: u16, name: &[u8], arity: usize) -> io::Result<()>
    requires { arity ≤ 4 }
{
    let from = 4 - arity;
    for k in 0..combinations(arity) {
        let digits = [digit(k / 64), digit(k / 16), digit(k / 4), digit(k)];
        row(rt, number, name, &digits[from..])?;
    }
    Ok(())
}

fn combinations(arity: usize) -> usize
    ensures { result ≤ 256 }
{
    match arity {
        1 => 4,
        2 => 16,
        3 => 64,
        _ => 256,
    }
}

fn digit(k: usize) -> u32 {
    (k % 4) as u32
}

fn row(rt: &impl Print, number: u16, name: &[u8], args: &[u32]) -> io::Result<()>
    requires { length args.now ≤ 4 }
{
    rt.write_all(name)?;
    print_all(rt, args)?;
    rt.write_all(b" :")?;
    print(rt, value(number, args))?;
    rt.write_all(b"\n")
}

// A gate's value, each argument standing at its own slot.
fn value(number: u16, args: &[u32]) -> u32
    requires { length args.now ≤ 4 }
{
    let slots = [0u16, 1, 2, 3];
    match gates::kind_of(number) {
        Kind::Gate(rule, _) => { run_walk::gate::result(rule, &slots, 0, args.len(), args) }
        Kind::Module => 0,
    }
}

fn print_all(rt: &impl Print, args: &[u32]) -> io::Result<()> {
    for i in 0..args.len() {
        print(rt, args[i])?;
    }
    Ok(())
}

fn print(rt: &impl Print, v: u32) -> io::Result<()> {
    rt.write_all(&[b' ', b'0' + (v % 10) as u8])
}
