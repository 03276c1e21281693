// A file read, checked and measured as by `open_file`, for a call that writes from the file's own numbers: these stay in a list beside the image, so
// that the file's bytes are read once.
#![tactic(auto)]

ghost use Rattle.std.specs.Prelude.{List, ◌≡◌, length};
ghost use Rattle.meaning.specs.Syntax.{Module};
ghost use Rattle.check_steps.specs.Found.{Laidout};
ghost use Rattle.check_files.specs.Files.{FileReady, FileFound};
ghost use Rattle.open_beside.specs.Beside.{SpaceBeside, PreparesBeside};

use read_file::Extent;
use refusals::Refusal;

// A list becomes another.
fn copy(source: &[u16], target: &mut [u16])
    requires { length target.old ≡ length source.now }
    ensures { target.new ≡ source.now }
{
    for i in 0..source.len() {
        target[i] = source[i];
    }
}

// The check of a file's numbers, on a copy of them that becomes the image.
fn check_copy(
    numbers: &[u16],
    image: &mut [u16],
    starts: &[usize],
    modules: usize,
    first: &mut [u16],
    slots: &mut [u32],
    names: &mut [u16],
    nets: &mut [usize],
    sizes: &mut [u32],
    rooms: &mut [u32],
) -> Result<(), Refusal>
    requires file_ready { FileReady numbers.now starts.now modules first.old slots.old names.old nets.old sizes.old rooms.old }
    requires image_len { length image.old ≡ length numbers.now }
    ensures { (ms : List Module) → Laidout numbers.now starts.now modules ms → FileFound result ms image.new names.new nets.new sizes.new rooms.new }
{
    copy(numbers, image);
    check_files::files::check_modules(
        image, starts, modules, first, slots, names, nets, sizes, rooms,
    )
}

// Reads a file, checks it and measures its modules. Its numbers, and where its modules begin in them and in its bytes, stay in lists.
pub fn prepare(
    file: &[u8],
    numbers: &mut [u16],
    offsets: &mut [usize],
    image: &mut [u16],
    starts: &mut [usize],
    names: &mut [u16],
    nets: &mut [usize],
    sizes: &mut [u32],
    rooms: &mut [u32],
    first: &mut [u16],
    slots: &mut [u32],
) -> Result<Extent, Refusal>
    requires { SpaceBeside file.now numbers.old offsets.old image.old starts.old names.old nets.old sizes.old rooms.old first.old slots.old }
    ensures { PreparesBeside result file.now numbers.new offsets.new image.new starts.new names.new nets.new sizes.new rooms.new }
{
    let extent = read_file::read(file, numbers, starts, offsets)?;
    check_copy(
        &numbers[..extent.numbers],
        &mut image[..extent.numbers],
        starts,
        extent.modules,
        first,
        slots,
        names,
        nets,
        sizes,
        rooms,
    )?;
    Ok(extent)
}
