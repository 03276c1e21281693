// Prints the listing of the file on standard input: a line for each module, or one line that says why the file is refused. It reads
// 65,536 bytes at most, one more than a file may have. Delays by a chip family come last, from the file `family` where it runs.
#![tactic(auto)]

use std::io;

fn main(rt: HostRuntime) -> io::Result<()> {
    let mut file = [0u8; 65536];
    let count = streams::read_full(&mut rt.reader(), &mut file)?;
    list_file::printing::print(&rt, &file[..count], list_file::chip::here(&rt))
}
