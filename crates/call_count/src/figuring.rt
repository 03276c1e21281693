// The figures of a module that stands in the image.
ghost use Rattle.std.specs.Prelude.{◌≤◌, length};
ghost use Rattle.meaning.specs.Family.{summary_on};
ghost use Rattle.open_finding.specs.Standing.{Standing};
ghost use Rattle.call_count.specs.Answers.{Counts};
ghost use Rattle.call_count.specs.Figuring.{Figured};

use crate::counts::{Figures, Tally};
use families::Family;
use image::Image;
use open_finding::Site;
use refusals::Refusal;

// Two walks work in scratch, one after the other: one for both delays, and one for tally and load together. The loads of inputs and outputs are
// kept in a list of their own, which has a family's arrivals before.
fn figures_at(
    image: Image<'_>,
    site: Site,
    family: Family,
    scratch: &mut [u32],
    loads: &mut [u32],
) -> Figures
    requires standing { Standing image.numbers.now image.starts.now image.nets.now site }
    requires room_in_bounds { site.room ≤ length scratch.old }
    requires image_in_bounds { length image.numbers.now ≤ length loads.old }
    ensures { (s : Standing image.entry.numbers.now image.entry.starts.now image.entry.nets.now site)
        → Figured s.ms site.number s.found.m family.delays scratch.old scratch.new result }
{
    let k = site.position;
    let size = site.size;
    let room = site.room;
    let entries = room as usize;
    let header = image.module(k);
    let inputs = header.inputs as u32;
    let outputs = (header.to - header.from) as u32;
    let delays = run_engine::delays(family, image, k, entries, scratch, loads);
    let weighed = load_engine::weigh(image, k, entries, scratch, loads);
    let reached = weighed.tally;
    let gates = tally_engine::gates_of(reached);
    let counts = reached.counts;
    let load = weighed.load;
    Figures {
        inputs,
        outputs,
        tally: Tally { counts },
        gates,
        size,
        room,
        delay: delays.unit,
        load,
        family: delays.family,
    }
}

// 21, or the figures. There is a load for each number of the image.
pub fn count_at(
    image: Image<'_>,
    site: Site,
    family: Family,
    scratch: &mut [u32],
    loads: &mut [u32],
) -> Result<Figures, Refusal>
    requires standing { Standing image.numbers.now image.starts.now image.nets.now site }
    requires image_in_bounds { length image.numbers.now ≤ length loads.old }
    ensures { (s : Standing image.entry.numbers.now image.entry.starts.now image.entry.nets.now site)
        → Counts (summary_on family.delays site.number (length scratch.old) s.ms s.found.m) scratch.old scratch.new result }
{
    if scratch.len() < site.room as usize {
        return Err(Refusal {
            number: 21,
            place: 0,
        });
    }
    Ok(figures_at(image, site, family, scratch, loads))
}
