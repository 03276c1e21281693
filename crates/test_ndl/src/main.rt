// Listings of the written adder of width 1, 67 bytes. A line of the input is 128 bytes of gate names. Under the names of the first line the text
// itself is printed, as docs/NDL.md has it; then the answers for a buffer that the text just fits and for one of a byte less, and for a
// byte less of names. Of every other line the answer is printed.
#![tactic(auto)]

ghost use Rattle.std.specs.Prelude.{◌≤◌};

use refusals::Refusal;
use std::io;
use std::io::Read;

fn main(rt: HostRuntime) -> io::Result<()> {
    let mut file = [0u8; 67];
    let _ = shelf::adder(1, &mut file); // the buffer is as long as the file
    let mut line = [0u8; 129];
    let mut input = rt.reader();
    streams::read_full(&mut input, &mut line)?;
    first(&rt, &file, names_of(&line))?;
    list_all(&rt, &mut input, &file, &mut line)
}

// A line without the byte that is its end.
fn names_of(line: &[u8]) -> &[u8] {
    line.get(..128).unwrap_or(line)
}

fn first(rt: &impl Print, file: &[u8], names: &[u8]) -> io::Result<()> {
    show(rt, file, names)?;
    fit::<420>(rt, file, names)?;
    fit::<419>(rt, file, names)?;
    fit::<420>(rt, file, names.get(..127).unwrap_or(names))
}

fn show(rt: &impl Print, file: &[u8], names: &[u8]) -> io::Result<()> {
    let mut text = [0u8; 5190];
    let made = shelf::write_ndl(file, names, &mut text);
    rt.write_all(&text[0..420])?;
    print_answer(rt, made)
}

// The answer for a buffer of a length.
fn fit<const N: usize>(rt: &impl Print, file: &[u8], names: &[u8]) -> io::Result<()>
    requires { N ≤ 5190 }
{
    let mut text = [0u8; N];
    print_answer(rt, shelf::write_ndl(file, names, &mut text))
}

// The other lines, a hundred at most.
fn list_all(
    rt: &impl Print,
    input: &mut impl Read,
    file: &[u8],
    line: &mut [u8; 129],
) -> io::Result<()> {
    for _ in 0..100 {
        if streams::read_full(input, line)? < 129 {
            return Ok(());
        }
        rt.write_all(line)?;
        fit::<5190>(rt, file, names_of(line))?;
    }
    Ok(())
}

fn print_answer(rt: &impl Print, answer: Result<usize, Refusal>) -> io::Result<()> {
    match answer {
        Ok(count) => println!(rt; "wrote {count}"),
        Err(Refusal { number, place }) => println!(rt; "refused {number} {place}"),
    }
}
