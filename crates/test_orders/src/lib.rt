// Prints what is ordered of a writer, and what comes back.
#![tactic(auto)]

ghost use Rattle.std.specs.Prelude.{◌≤◌};

use refusals::Refusal;
use std::io;

// Orders a width into a buffer of a length: prints both, and the answer.
pub fn order<const N: usize, F: FnOnce(usize, &mut [u8]) -> Result<usize, Refusal>>(
    rt: &impl Print,
    writer: F,
    width: usize,
) -> io::Result<()>
    requires callable { F.IsAlwaysCallable writer }
    requires short { N ≤ 65536 }
{
    let mut buffer = [255u8; N];
    order_into(rt, writer, width, &mut buffer)
}

// The same, and then the buffer. Each byte of it is FF at first, so that what is left as it was can be seen.
pub fn show<const N: usize, F: FnOnce(usize, &mut [u8]) -> Result<usize, Refusal>>(
    rt: &impl Print,
    writer: F,
    width: usize,
) -> io::Result<()>
    requires callable { F.IsAlwaysCallable writer }
    requires short { N ≤ 65536 }
{
    let mut buffer = [255u8; N];
    order_into(rt, writer, width, &mut buffer)?;
    print_line(rt, &buffer)
}

fn order_into<F: FnOnce(usize, &mut [u8]) -> Result<usize, Refusal>>(
    rt: &impl Print,
    writer: F,
    width: usize,
    buffer: &mut [u8],
) -> io::Result<()>
    requires { F.IsAlwaysCallable writer }
{
    let long = buffer.len();
    print!(rt; "width {width} buffer {long}")?;
    print_answer(rt, writer(width, buffer))
}

// The answer, which ends the line.
pub fn print_answer(rt: &impl Print, answer: Result<usize, Refusal>) -> io::Result<()> {
    match answer {
        Ok(count) => println!(rt; " wrote {count}"),
        Err(Refusal { number, place }) => println!(rt; " refused {number} {place}"),
    }
}

// A line of bytes in hexadecimal.
pub fn print_line(rt: &impl Print, bytes: &[u8]) -> io::Result<()> {
    for byte in bytes {
        print!(rt; " {byte:02X}")?;
    }
    println!(rt)
}
