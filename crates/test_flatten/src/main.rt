// Flattens modules of stored files and prints for each case how many entries of scratch and how many bytes of the output buffer the
// call changed, its answer, and the first bytes that it wrote. In the input a case is a label, a file, the module's number, and the lengths
// of scratch and of the output buffer.
#![tactic(auto)]

use refusals::Refusal;
use std::io;
use test_cases::{read_number, read_part};

fn main(rt: HostRuntime) -> io::Result<()> {
    let mut space = [0u8; 65536];
    test_cases::each(&mut rt.reader(), |input, label| {
        rt.write_all(label)?;
        let file = read_part(input, &mut space)?;
        let number = read_number(input)?;
        let entries = usize::from(read_number(input)?);
        let bytes = usize::from(read_number(input)?);
        flatten(&rt, file, number, entries, bytes)
    })
}

// Each entry of scratch is 7 at first and each byte of the buffer FF, so that what is left as it was can be seen. The call is lent the first
// entries and bytes.
fn flatten(
    rt: &impl Print,
    file: &[u8],
    number: u16,
    entries: usize,
    bytes: usize,
) -> io::Result<()> {
    let mut scratch = [7u32; 8192];
    let mut out = [255u8; 32768];
    if scratch.len() < entries || out.len() < bytes {
        return Ok(());
    }
    let answer = call_door::flatten(file, number, &mut scratch[..entries], &mut out[..bytes]);
    let cleared = scratch.iter().filter(|entry| **entry != 7).count();
    let filled = out.iter().filter(|byte| **byte != 255).count();
    print!(rt; ": cleared {cleared} filled {filled}")?;
    test_orders::print_answer(rt, answer)?;
    match answer {
        Ok(count) => show(rt, count, &out),
        Err(Refusal { .. }) => Ok(()),
    }
}

// The first bytes of the answer, 256 at most.
fn show(rt: &impl Print, count: usize, out: &[u8]) -> io::Result<()> {
    match out.get(..count.min(256)) {
        Some(shown) => test_orders::print_line(rt, shown),
        None => Ok(()),
    }
}
