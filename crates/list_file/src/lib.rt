// The listing of a file: the text that the listing program prints. The file is read, checked and measured once, and then each module is
// counted where it stands.
#![tactic(auto)]

pub mod chip; // chip.rt: the family that a file holds
mod lines;
pub mod printing;

ghost use Rattle.std.specs.Prelude.{◌≤◌, ◌≡◌, length};
ghost use Rattle.meaning.specs.Listing.{listing, listing_scratch};
ghost use Rattle.open_file.specs.Prepared.{Space};
ghost use Rattle.list_text.specs.Pieces.{PutDown};
ghost use Rattle.list_file.specs.Sheet.{longest_listing};

use families::Family;
use image::Image;

// The listing in lists that are long enough for the file.
fn list_in(
    file: &[u8],
    family: Family,
    image: &mut [u16],
    starts: &mut [usize],
    names: &mut [u16],
    nets: &mut [usize],
    sizes: &mut [u32],
    rooms: &mut [u32],
    first: &mut [u16],
    slots: &mut [u32],
    loads: &mut [u32],
    scratch: &mut [u32],
    out: &mut [u8],
) -> usize
    requires space { Space file.now image.old starts.old names.old nets.old sizes.old rooms.old first.old slots.old }
    requires image_in_bounds { length image.old ≤ length loads.old }
    requires scratch_len { length scratch.old ≡ listing_scratch }
    requires longest_listing_in_bounds { longest_listing ≤ length out.old }
    ensures { PutDown (listing file.now family.delays) out.old 0 out.new result }
{
    match open_file::prepare(file, image, starts, names, nets, sizes, rooms, first, slots) {
        Err(refusal) => {
            list_text::put_file_refusal(refusal.number as u64, refusal.place as u64, out)
        }
        Ok(modules) => crate::lines::put_lines(
            Image {
                numbers: image,
                starts,
                nets,
            },
            names,
            sizes,
            rooms,
            modules,
            family,
            loads,
            scratch,
            out,
        ),
    }
}

// Writes the listing of a file, with delays by a chip family last, at the front of `out`, which has room for 128 lines of the longest kind, and answers its length.
pub fn list(file: &[u8], family: Family, out: &mut [u8; 26880]) -> usize
    ensures { PutDown (listing file.now family.delays) out.old 0 out.new result }
{
    let mut image = [0u16; 65535];
    let mut starts = [0usize; 128];
    let mut names = [0u16; 128];
    let mut nets = [0usize; 128];
    let mut sizes = [0u32; 128];
    let mut rooms = [0u32; 128];
    let mut first = [0u16; 16384];
    let mut slots = [0u32; 16384];
    let mut loads = [0u32; 65535];
    let mut scratch = [0u32; 16384];
    list_in(
        file,
        family,
        &mut image,
        &mut starts,
        &mut names,
        &mut nets,
        &mut sizes,
        &mut rooms,
        &mut first,
        &mut slots,
        &mut loads,
        &mut scratch,
        out,
    )
}
