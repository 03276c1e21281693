// The walk of a flattening, in lists of its own. How many bytes a flattened file has is known only behind the walk, and a refusal changes
// nothing that was lent: so the walk writes to a list of its own, in entries of its own, of two bytes since they hold nets of the flattened
// module; what is lent is written only when the call is sure to be answered.
#![tactic(auto)]

ghost use Rattle.std.specs.Prelude.{◌≤◌, length};
ghost use Rattle.meaning.specs.Calls.{flat_file, fitting};
ghost use Rattle.answers.specs.Settled.{Settles};
ghost use Rattle.flat_lists.specs.Placeable.{Placeable};

use image::Image;
use open_finding::Site;
use refusals::Refusal;

// The walk in given entries, then the answer.
fn place_in(
    image: Image,
    site: Site,
    entries: &mut [u16],
    flat: &mut [u8],
    scratch: &mut [u32],
    out: &mut [u8],
) -> Result<usize, Refusal>
    requires placeable { Placeable image.numbers.now image.starts.now image.nets.now site (length entries.old) (length flat.old) }
    requires room_in_bounds { site.room ≤ length scratch.old }
    ensures { (p : Placeable image.entry.numbers.now image.entry.starts.now image.entry.nets.now site
        (length entries.old) (length flat.old))
        → Settles (fitting (flat_file p.here.ms site.number p.here.found.m) site.room (length out.old))
        scratch.old out.old scratch.new out.new result }
{
    let ends = flat_engine::flatten(image, site.position, site.number, entries, flat);
    let room = site.room as usize;
    flat_ending::answer(flat, ends.gates, ends.whole, room, scratch, out)
}

// A module whose room is at most so many entries and whose file has at most so many bytes when it is flat. A caller that knows that a
// module is small asks for short lists, so that it does not pay for clearing long ones.
pub fn place<const ENTRIES: usize, const BYTES: usize>(
    image: Image,
    site: Site,
    scratch: &mut [u32],
    out: &mut [u8],
) -> Result<usize, Refusal>
    requires entries_bound { ENTRIES ≤ 65535 }
    requires bytes_bound { BYTES ≤ 65535 }
    requires placeable { Placeable image.numbers.now image.starts.now image.nets.now site ENTRIES BYTES }
    requires room_in_bounds { site.room ≤ length scratch.old }
    ensures { (p : Placeable image.entry.numbers.now image.entry.starts.now image.entry.nets.now site ENTRIES BYTES)
        → Settles (fitting (flat_file p.here.ms site.number p.here.found.m) site.room (length out.old))
        scratch.old out.old scratch.new out.new result }
{
    let mut entries = [0u16; ENTRIES];
    let mut flat = [0u8; BYTES];
    place_in(image, site, &mut entries, &mut flat, scratch, out)
}
