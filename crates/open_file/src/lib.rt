// A file read, checked and measured: refusals 1 to 17, and what every call on an accepted file rests on.
#![tactic(auto)]

ghost use Rattle.open_file.specs.Prepared.{Space, Prepares};

use refusals::Refusal;

// Reads a file, checks it and measures its modules. The list of the image holds the file's numbers first, and the image takes their place;
// so the modules' numbers are kept apart. It answers how many modules there are, or the refusal.
pub fn prepare(
    file: &[u8],
    image: &mut [u16],
    starts: &mut [usize],
    names: &mut [u16],
    nets: &mut [usize],
    sizes: &mut [u32],
    rooms: &mut [u32],
    first: &mut [u16],
    slots: &mut [u32],
) -> Result<usize, Refusal>
    requires { Space file.now image.old starts.old names.old nets.old sizes.old rooms.old first.old slots.old }
    ensures { Prepares result file.now image.new starts.new names.new nets.new sizes.new rooms.new }
{
    let mut offsets = [0usize; 128];
    let extent = read_file::read(file, image, starts, &mut offsets)?;
    check_files::files::check_modules(
        &mut image[..extent.numbers],
        starts,
        extent.modules,
        first,
        slots,
        names,
        nets,
        sizes,
        rooms,
    )?;
    Ok(extent.modules)
}
