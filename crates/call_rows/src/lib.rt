// A block of rows: a module of a file run on many rows of values at once.
#![tactic(auto)]

ghost use Rattle.std.specs.Prelude.{◌*◌, ◌≤◌, ◌≡◌, length};
ghost use Rattle.answers.specs.Settled.{Settles};
ghost use Rattle.answers.specs.Running.{Runs};
ghost use Rattle.meaning.specs.Rows.{rows_evaluation_on};
ghost use Rattle.meaning.specs.Work.{rows_running_on};
ghost use Rattle.open_finding.specs.Standing.{Standing};

use answers::Run;
use image::Image;
use open_finding::Site;
use refusals::Refusal;

mod values;

// Refusals 19 to 22 in their order, then the runs, of at most 1,024 rows.
fn block_at(
    image: Image<'_>,
    site: Site,
    rows: usize,
    values: &[u8],
    scratch: &mut [u32],
    out: &mut [u8],
) -> Result<usize, Refusal>
    requires standing { Standing image.numbers.now image.starts.now image.nets.now site }
    requires rows_bound { rows ≤ 1024 }
    ensures { (s : Standing image.entry.numbers.now image.entry.starts.now image.entry.nets.now site)
        → Settles (rows_evaluation_on site.number rows values.now (length scratch.old) (length out.old) s.ms s.found.m) scratch.old out.old scratch.new out.new result }
{
    let k = site.position;
    let room = site.room as usize;
    let header = image.module(k);
    let given = rows * header.inputs;
    let outputs = rows * (header.to - header.from);
    if values.len() != given {
        return Err(Refusal {
            number: 19,
            place: 0,
        });
    }
    let above = crate::values::first_above(values);
    if above < values.len() {
        return Err(Refusal {
            number: 20,
            place: above,
        });
    }
    if scratch.len() < room {
        return Err(Refusal {
            number: 21,
            place: 0,
        });
    }
    if out.len() < outputs {
        return Err(Refusal {
            number: 22,
            place: 0,
        });
    }
    rows_space::run(256, image, site, rows, values, out);
    image::buffers::clear(room, scratch);
    Ok(outputs)
}

// Refusal 27, then the others. One row is a run of its own, in the lent scratch. Called from two places the block stays a function of its
// own, and other tasks do not pay for its stack.
fn rows_at(
    image: Image<'_>,
    site: Site,
    rows: usize,
    values: &[u8],
    scratch: &mut [u32],
    out: &mut [u8],
) -> Result<usize, Refusal>
    requires { Standing image.numbers.now image.starts.now image.nets.now site }
    ensures { (s : Standing image.entry.numbers.now image.entry.starts.now image.entry.nets.now site)
        → Settles (rows_evaluation_on site.number rows values.now (length scratch.old) (length out.old) s.ms s.found.m) scratch.old out.old scratch.new out.new result }
{
    if rows == 0 {
        return block_at(image, site, rows, values, scratch, out);
    }
    if rows == 1 {
        return call_evaluate::evaluate_at(image, site, values, scratch, out);
    }
    if 1024 < rows {
        return Err(Refusal {
            number: 27,
            place: 0,
        });
    }
    block_at(image, site, rows, values, scratch, out)
}

// The same with its work: each row is as many occurrences as the module's expanded size, though the walk itself serves many rows at once.
pub fn run_at(
    image: Image<'_>,
    site: Site,
    rows: usize,
    values: &[u8],
    scratch: &mut [u32],
    out: &mut [u8],
) -> Result<Run, Refusal>
    requires { Standing image.numbers.now image.starts.now image.nets.now site }
    ensures { (s : Standing image.entry.numbers.now image.entry.starts.now image.entry.nets.now site)
        → Runs (rows_running_on site.number rows values.now (length scratch.old) (length out.old) s.ms s.found.m) scratch.old out.old scratch.new out.new result }
{
    let written = rows_at(image, site, rows, values, scratch, out)?;
    Ok(Run {
        written,
        work: rows as u32 * site.size,
    })
}
