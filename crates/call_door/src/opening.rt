// The one way into a file: it is made ready, and what is asked goes on from there.
ghost use Rattle.std.specs.Prelude.{◌≤◌, length};
ghost use Rattle.call_door.specs.Asks.{Meets};
ghost use Rattle.open_file.specs.Prepared.{Open};
ghost use Rattle.open_file.specs.Spaces.{Clear};

use crate::asks::{Ask, Sheet};
use families::Family;
use image::Image;
use refusals::Refusal;

// What is asked of a file that stands ready.
fn ask_open(
    ask: Ask,
    family: Family,
    modules: usize,
    image: Image<'_>,
    names: &[u16],
    sizes: &[u32],
    rooms: &[u32],
    values: &[u8],
    scratch: &mut [u32],
    out: &mut [u8],
) -> Sheet
    requires fact { Open image.numbers.now image.starts.now names.now image.nets.now sizes.now rooms.now modules }
    requires image_len_bound { length image.numbers.now ≤ 65535 }
    ensures { (o : Open image.entry.numbers.now image.entry.starts.now names.now image.entry.nets.now sizes.now rooms.now modules)
        → Meets ask family.delays o.file values.now scratch.old out.old scratch.new out.new result }
{
    match ask {
        Ask::Modules => crate::asks::listed(Ok(modules)),
        Ask::NumberAt(position) => {
            crate::asks::named(open_finding::number_at(names, modules, position))
        }
        Ask::Of(task, number) => match open_finding::find(names, modules, number) {
            None => crate::asks::refused(Refusal {
                number: 18,
                place: 0,
            }),
            Some(k) => {
                let site = open_finding::site_at(k, number, sizes, rooms);
                crate::working::work_at(task, image, site, family, values, scratch, out)
            }
        },
    }
}

// A file made ready in a list of so many numbers and tables of so many entries, and what is asked of it.
fn ask_in<const NUMBERS: usize, const TABLE: usize>(
    ask: Ask,
    family: Family,
    file: &[u8],
    values: &[u8],
    scratch: &mut [u32],
    out: &mut [u8],
) -> Sheet
    requires numbers_bound { NUMBERS ≤ 65535 }
    requires table_bound { TABLE ≤ 16384 }
    requires clear { Clear file.now NUMBERS TABLE }
    ensures { Meets ask family.delays file.now values.now scratch.old out.old scratch.new out.new result }
{
    let mut image = [0u16; NUMBERS];
    let mut starts = [0usize; 128];
    let mut names = [0u16; 128];
    let mut nets = [0usize; 128];
    let mut sizes = [0u32; 128];
    let mut rooms = [0u32; 128];
    let mut first = [0u16; TABLE];
    let mut slots = [0u32; TABLE];
    match open_file::prepare(
        file,
        &mut image,
        &mut starts,
        &mut names,
        &mut nets,
        &mut sizes,
        &mut rooms,
        &mut first,
        &mut slots,
    ) {
        Err(refusal) => crate::asks::refused(refusal),
        Ok(modules) => ask_open(
            ask,
            family,
            modules,
            Image {
                numbers: &image,
                starts: &starts,
                nets: &nets,
            },
            &names,
            &sizes,
            &rooms,
            values,
            scratch,
            out,
        ),
    }
}

// The one door. A long file goes the long way at once. Called from two places that way stays a function of its own, and a short file, which
// should not pay for clearing long lists, does not pay for its stack either.
pub fn answer(
    ask: Ask,
    family: Family,
    file: &[u8],
    values: &[u8],
    scratch: &mut [u32],
    out: &mut [u8],
) -> Sheet
    ensures { Meets ask family.delays file.now values.now scratch.old out.old scratch.new out.new result }
{
    if 1024 < file.len() {
        return ask_in::<65535, 16384>(ask, family, file, values, scratch, out);
    }
    if open_shortness::is_short(file) {
        ask_in::<1024, 512>(ask, family, file, values, scratch, out)
    } else {
        ask_in::<65535, 16384>(ask, family, file, values, scratch, out)
    }
}
