// The group's file before the house's: a module looked up, and both joined. Which file the answer is about is written with a refusal too.
ghost use Rattle.std.specs.Prelude.{◌≡◌, length};
ghost use Rattle.meaning.specs.Calls.{number_of, place_of, out_after};
ghost use Rattle.meaning.specs.Shelves.{look_up, joining};
ghost use Rattle.shelf_c.specs.Results.{written_after};
ghost use Rattle.shelf_c.specs.TwoFiles.{start_after, length_after};

use shelf::{Looked, Which};

#[unsafe(no_mangle)]
pub extern "C" fn shelf_look_up(
    group: &[u8],
    house: &[u8],
    number: u16,
    which: &mut u16,
    start: &mut usize,
    length: &mut usize,
    place: &mut usize,
) -> u16
    ensures value { result ≡ number_of (look_up group.now house.now number).decision }
    ensures which_after { which.new ≡ (look_up group.now house.now number).which }
    ensures start_after { start.new ≡ start_after (look_up group.now house.now number).decision start.old }
    ensures length_after { length.new ≡ length_after (look_up group.now house.now number).decision length.old }
    ensures place_after { place.new ≡ place_of (look_up group.now house.now number).decision }
{
    match shelf::which_shelf(group, house, number) {
        Ok(Looked::Group(part)) => {
            *which = u16::from(Which::Group);
            *start = part.start;
            *length = part.length;
            *place = 0;
            0
        }
        Ok(Looked::House(part)) => {
            *which = u16::from(Which::House);
            *start = part.start;
            *length = part.length;
            *place = 0;
            0
        }
        Err(about) => {
            *which = u16::from(about.which);
            *place = about.refusal.place;
            about.refusal.number
        }
    }
}

#[unsafe(no_mangle)]
pub extern "C" fn shelf_join(
    group: &[u8],
    house: &[u8],
    out: &mut [u8],
    which: &mut u16,
    written: &mut usize,
    place: &mut usize,
) -> u16
    ensures value { result ≡ number_of (joining group.now house.now (length out.old)).decision }
    ensures which_after { which.new ≡ (joining group.now house.now (length out.old)).which }
    ensures written_after { written.new ≡ written_after (joining group.now house.now (length out.old)).decision written.old }
    ensures place_after { place.new ≡ place_of (joining group.now house.now (length out.old)).decision }
    ensures out_after { out.new ≡ out_after (joining group.now house.now (length out.old)).decision out.old }
{
    match shelf::join(group, house, out) {
        Ok(count) => {
            *which = u16::from(Which::Neither);
            *written = count;
            *place = 0;
            0
        }
        Err(about) => {
            *which = u16::from(about.which);
            *place = about.refusal.place;
            about.refusal.number
        }
    }
}
