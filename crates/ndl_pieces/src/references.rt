// What an occurrence refers to, by name.
ghost use Rattle.std.specs.Prelude.{◌≡◌, length};
ghost use Rattle.meaning.specs.Ceilings.{Small};
ghost use Rattle.meaning.specs.Ndl.{letters, reference_text};
ghost use Rattle.bytes_out.specs.Filled.{Put};
ghost use Rattle.write_pieces.specs.Rooms.{Room};

use crate::numerals::put_named;
use write_pieces::bytes::copy;

// The letters of a name of eight bytes.
fn put_letters(name: &[u8], out: &mut [u8], at: usize) -> usize
    requires { Room (letters name.now) out.old at }
    ensures { Put (letters name.now) out.old at out.new result }
{
    let count = ndl_names::letters(name);
    copy(&name[..count], out, at)
}

// A gate by its name among the sixteen that are lent, a module by its number.
pub fn put(names: &[u8], number: u16, out: &mut [u8], at: usize) -> usize
    requires { (length names.now ≡ 128) × Small number × Room (reference_text names.now number) out.old at }
    ensures { Put (reference_text names.now number) out.old at out.new result }
{
    if number < 16 {
        let from = 8 * (number as usize);
        return put_letters(&names[from..from + 8], out, at);
    }
    put_named(b'M', number, out, at)
}
