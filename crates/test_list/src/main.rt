// Lists stored files, each behind a line with its label: first 65,536 bytes of 0, then the cases of the input, a label and a file each.
#![tactic(auto)]

use std::io;

fn main(rt: HostRuntime) -> io::Result<()> {
    let mut space = [0u8; 65536];
    rt.write_all(b"1 65536 bytes:\n")?;
    list_file::printing::print(&rt, &space, families::unit())?;
    test_cases::each(&mut rt.reader(), |input, label| {
        rt.write_all(label)?;
        rt.write_all(b":\n")?;
        let file = test_cases::read_part(input, &mut space)?;
        list_file::printing::print(&rt, file, families::unit())
    })
}
