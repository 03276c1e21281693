// Evaluation: a module of a file run on values, some of which may be unknown.
#![tactic(auto)]

ghost use Rattle.std.specs.Prelude.{length, ◌≡◌};
ghost use Rattle.answers.specs.Settled.{Settles};
ghost use Rattle.answers.specs.Running.{Runs};
ghost use Rattle.meaning.specs.Calls.{evaluation_on};
ghost use Rattle.meaning.specs.Work.{running_on};
ghost use Rattle.open_finding.specs.Standing.{Standing};

use answers::Run;
use image::Image;
use open_finding::Site;
use refusals::Refusal;

pub mod values;

// Refusals 19 to 22 in their order, then the run, of a module that stands in the image.
pub fn evaluate_at(
    image: Image<'_>,
    site: Site,
    values: &[u8],
    scratch: &mut [u32],
    out: &mut [u8],
) -> Result<usize, Refusal>
    requires { Standing image.numbers.now image.starts.now image.nets.now site }
    ensures { (s : Standing image.entry.numbers.now image.entry.starts.now image.entry.nets.now site)
        → Settles (evaluation_on site.number values.now (length scratch.old) (length out.old) s.ms s.found.m) scratch.old out.old scratch.new out.new result }
{
    let k = site.position;
    let room = site.room as usize;
    let header = image.module(k);
    let outputs = header.to - header.from;
    if values.len() != header.inputs {
        return Err(Refusal {
            number: 19,
            place: 0,
        });
    }
    let above = crate::values::first_above(values);
    if above < values.len() {
        return Err(Refusal {
            number: 20,
            place: above,
        });
    }
    if scratch.len() < room {
        return Err(Refusal {
            number: 21,
            place: 0,
        });
    }
    if out.len() < outputs {
        return Err(Refusal {
            number: 22,
            place: 0,
        });
    }
    run_engine::evaluate(image, k, room, values, scratch, out);
    Ok(outputs)
}

// The same with its work, which is the module's expanded size and was measured before: the walk itself may leave out what gives nothing.
pub fn run_at(
    image: Image<'_>,
    site: Site,
    values: &[u8],
    scratch: &mut [u32],
    out: &mut [u8],
) -> Result<Run, Refusal>
    requires { Standing image.numbers.now image.starts.now image.nets.now site }
    ensures { (s : Standing image.entry.numbers.now image.entry.starts.now image.entry.nets.now site)
        → Runs (running_on site.number values.now (length scratch.old) (length out.old) s.ms s.found.m) scratch.old out.old scratch.new out.new result }
{
    let written = evaluate_at(image, site, values, scratch, out)?;
    Ok(Run {
        written,
        work: site.size,
    })
}
