// The listing on standard output.
use families::Family;
use std::io;

// Prints the listing of a file, with delays by a chip family last.
pub fn print(rt: &impl Print, file: &[u8], family: Family) -> io::Result<()> {
    let mut text = [0u8; 26880];
    let used = crate::list(file, family, &mut text);
    rt.write_all(&text[..used])
}
