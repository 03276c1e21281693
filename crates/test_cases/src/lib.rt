// Stored cases on standard input: numbers of two bytes, the low one first, and parts, each behind the count of its bytes.
#![tactic(auto)]

ghost use Rattle.std.specs.Prelude.{◌≤◌, length, IfOk};

use std::io;
use std::io::Read;

// Performs each case of the input, a thousand at most. A case begins with its label, which is not empty.
pub fn each<R: Read, F: FnMut(&mut R, &[u8]) -> io::Result<()>>(
    input: &mut R,
    mut perform: F,
) -> io::Result<()>
    requires { F.IsAlwaysCallable perform }
{
    let mut space = [0u8; 256];
    for _ in 0..1000 {
        let label = read_part(input, &mut space)?;
        if label.is_empty() {
            return Ok(());
        }
        perform(input, label)?;
    }
    Ok(())
}

// The next part, at the front of `buffer`: empty at the end of the input, and where the buffer is too short.
pub fn read_part<'a>(input: &mut impl Read, buffer: &'a mut [u8]) -> io::Result<&'a [u8]>
    ensures { IfOk result (λ part. length part.now ≤ length buffer.old) }
{
    let count = read_number(input)? as usize;
    let Some(part) = buffer.get_mut(..count) else {
        return Ok(&[]);
    };
    streams::read_full(input, part)?;
    Ok(part)
}

// The next number; 0 at the end of the input.
pub fn read_number(input: &mut impl Read) -> io::Result<u16> {
    let mut bytes = [0u8; 2];
    if streams::read_full(input, &mut bytes)? < 2 {
        return Ok(0);
    }
    Ok(u16::from_le_bytes(bytes))
}
