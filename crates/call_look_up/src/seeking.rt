// A number sought in one file.
ghost use Rattle.std.specs.Prelude.{min, ◌≤◌, ◌≡◌, length};
ghost use Rattle.meaning.specs.Reading.{read, most_bytes};
ghost use Rattle.call_look_up.specs.Seeking.{sought_of};

use refusals::Refusal;

// Where the bytes of a module stand in a file.
#[derive(Clone, Copy, PartialEq, Eq, Debug)]
pub struct Stretch {
    pub start: usize,
    pub length: usize,
}

// The first module of the number, if the file has one; or the refusal of a file that does not read. The list of N numbers is only worked in.
fn seek_in<const N: usize>(file: &[u8], number: u16) -> Result<Option<Stretch>, Refusal>
    requires size { N ≤ 65535 }
    requires fits { min (length file.now) most_bytes ≤ N }
    ensures { result ≡ sought_of number (read file.now) }
{
    let mut numbers = [0u16; N];
    let mut names = [0u16; 128];
    let mut places = [0usize; 129];
    let modules = open_places::note(file, &mut numbers, &mut names, &mut places)?;
    let Some(k) = open_finding::find(&names, modules, number) else {
        return Ok(None);
    };
    let start = places[k];
    Ok(Some(Stretch {
        start,
        length: places[k + 1] - start,
    }))
}

// A short file should not pay for clearing a long list.
pub(crate) fn seek(file: &[u8], number: u16) -> Result<Option<Stretch>, Refusal>
    ensures { result ≡ sought_of number (read file.now) }
{
    if file.len() <= 1024 {
        return seek_in::<1024>(file, number);
    }
    seek_in::<65535>(file, number)
}
