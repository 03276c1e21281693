// The figures of a module, and what a file holds.
ghost use Rattle.std.specs.Prelude.{◌≡◌, length};
ghost use Rattle.meaning.specs.Calls.{number_of, place_of, scratch_after, module_count, number_at};
ghost use Rattle.meaning.specs.Family.{summary};
ghost use Rattle.shelf_c.specs.Results.{answer_after, figures_left, tally_left};

use c_reports::{in_order, report};
use shelf::Family;

// `figures` gets inputs, outputs, gates, expanded size, room, delay, largest load and the family's delay.
#[unsafe(no_mangle)]
pub extern "C" fn shelf_count(
    file: &[u8],
    number: u16,
    family: &[u8; 16],
    scratch: &mut [u32],
    figures: &mut [u32; 8],
    tally: &mut [u32; 16],
    place: &mut usize,
) -> u16
    ensures value { result ≡ number_of (summary file.now number family.now (length scratch.old)) }
    ensures place_after { place.new ≡ place_of (summary file.now number family.now (length scratch.old)) }
    ensures figures_after { figures.new ≡ figures_left (summary file.now number family.now (length scratch.old)) figures.old }
    ensures tally_after { tally.new ≡ tally_left (summary file.now number family.now (length scratch.old)) tally.old }
    ensures scratch_after { scratch.new ≡ scratch_after (λ s. s.figures.room) (summary file.now number family.now (length scratch.old)) scratch.old }
{
    let delays = *family;
    match shelf::count(file, number, Family { delays }, scratch) {
        Ok(found) => {
            *figures = in_order(found);
            let kinds = found.tally;
            let counts = kinds.counts;
            *tally = counts;
            *place = 0;
            0
        }
        Err(refusal) => {
            *place = refusal.place;
            refusal.number
        }
    }
}

#[unsafe(no_mangle)]
pub extern "C" fn shelf_modules(file: &[u8], modules: &mut usize, place: &mut usize) -> u16
    ensures value { result ≡ number_of (module_count file.now) }
    ensures modules_after { modules.new ≡ answer_after (module_count file.now) modules.old }
    ensures place_after { place.new ≡ place_of (module_count file.now) }
{
    report(shelf::modules(file), modules, place)
}

#[unsafe(no_mangle)]
pub extern "C" fn shelf_number_at(
    file: &[u8],
    position: usize,
    number: &mut u16,
    place: &mut usize,
) -> u16
    ensures value { result ≡ number_of (number_at file.now position) }
    ensures number_after { number.new ≡ answer_after (number_at file.now position) number.old }
    ensures place_after { place.new ≡ place_of (number_at file.now position) }
{
    report(shelf::number_at(file, position), number, place)
}
