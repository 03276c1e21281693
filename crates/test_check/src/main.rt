// Checks stored files and prints a line for each: first 65,536 bytes of 0, then the cases of the input, a label and a file each.
#![tactic(auto)]

use refusals::Refusal;
use std::io;

fn main(rt: HostRuntime) -> io::Result<()> {
    let mut space = [0u8; 65536];
    rt.write_all(b"1 65536 bytes")?;
    show(&rt, shelf::check(&space))?;
    test_cases::each(&mut rt.reader(), |input, label| {
        rt.write_all(label)?;
        let file = test_cases::read_part(input, &mut space)?;
        show(&rt, shelf::check(file))
    })
}

fn show(rt: &impl Print, checked: Result<(), Refusal>) -> io::Result<()> {
    match checked {
        Ok(()) => println!(rt; ": good"),
        Err(Refusal { number, place }) => println!(rt; ": refused {number} {place}"),
    }
}
