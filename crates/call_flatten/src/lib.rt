// Flattening: one module of a file with all that it refers to set down in it, written as a file of its own.
#![tactic(auto)]

ghost use Rattle.std.specs.Prelude.{◌+◌, ◌≤◌, ◌≡◌, ltb, length};
ghost use Rattle.meaning.specs.Figures.{gate_count};
ghost use Rattle.meaning.specs.Calls.{flattening_on};
ghost use Rattle.answers.specs.Settled.{Settles};
ghost use Rattle.open_finding.specs.Standing.{Standing};

use image::Image;
use open_finding::Site;
use refusals::Refusal;

// Whether inputs and gates are more than 4,096. The expanded size is at least the number of gates, so that they are counted only where it
// leaves the question open.
fn many_nets(image: Image<'_>, site: Site) -> bool
    requires { Standing image.numbers.now image.starts.now image.nets.now site }
    ensures { (s : Standing image.entry.numbers.now image.entry.starts.now image.entry.nets.now site)
        → result ≡ ltb 4096 (length s.found.m.inputs + gate_count s.ms site.number) }
{
    let k = site.position;
    let header = image.module(k);
    if header.inputs + site.size as usize <= 4096 {
        return false;
    }
    let gates = tally_engine::gates_of(tally_engine::tally_module(image.numbers, image.starts, k));
    4096 < header.inputs + gates as usize
}

// Of a module that stands in the image and is small: short lists serve, and 24 is never given.
pub fn flatten_small(
    image: Image<'_>,
    site: Site,
    scratch: &mut [u32],
    out: &mut [u8],
) -> Result<usize, Refusal>
    requires standing { Standing image.numbers.now image.starts.now image.nets.now site }
    requires size_bound { (site.size ≤ 832) × (site.room ≤ 1024) }
    ensures { (s : Standing image.entry.numbers.now image.entry.starts.now image.entry.nets.now site)
        → Settles (flattening_on site.number (length scratch.old) (length out.old) s.ms s.found.m)
        scratch.old out.old scratch.new out.new result }
{
    if scratch.len() < site.room as usize {
        return Err(Refusal {
            number: 21,
            place: 0,
        });
    }
    flat_lists::place::<1024, 13705>(image, site, scratch, out)
}

// Of any module that stands there: refusals 24 and 21 in their order, then the walk.
pub fn flatten_at(
    image: Image<'_>,
    site: Site,
    scratch: &mut [u32],
    out: &mut [u8],
) -> Result<usize, Refusal>
    requires { Standing image.numbers.now image.starts.now image.nets.now site }
    ensures { (s : Standing image.entry.numbers.now image.entry.starts.now image.entry.nets.now site)
        → Settles (flattening_on site.number (length scratch.old) (length out.old) s.ms s.found.m)
        scratch.old out.old scratch.new out.new result }
{
    let size = site.size;
    let room = site.room as usize;
    if size <= 832 && room <= 1024 {
        return flatten_small(image, site, scratch, out);
    }
    if many_nets(image, site) {
        return Err(Refusal {
            number: 24,
            place: 0,
        });
    }
    if scratch.len() < room {
        return Err(Refusal {
            number: 21,
            place: 0,
        });
    }
    if room <= 4096 {
        return flat_lists::place::<4096, 53641>(image, site, scratch, out);
    }
    flat_lists::place::<65535, 53641>(image, site, scratch, out)
}
