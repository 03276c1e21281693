// The calls on a file.
#![tactic(auto)]

pub mod asks;
pub mod opening;
mod working;

ghost use Rattle.std.specs.Prelude.{◌≡◌, length};
ghost use Rattle.meaning.specs.Calls.{flattening, module_count, number_at};
ghost use Rattle.meaning.specs.Family.{summary};
ghost use Rattle.answers.specs.Settled.{Settles};
ghost use Rattle.call_evaluate.specs.Evaluates.{Evaluates};
ghost use Rattle.call_rows.specs.Blocks.{EvaluatesRows};
ghost use Rattle.call_count.specs.Answers.{Counts};
ghost use Rattle.answers.specs.Contents.{found_of};

use crate::asks::{Ask, Own, Task};
use answers::Run;
use call_count::counts::Figures;
use families::Family;
use refusals::Refusal;

// How many modules a file has.
pub fn modules(file: &[u8]) -> Result<usize, Refusal>
    ensures { result ≡ found_of (module_count file.now) }
{
    let mut scratch = [0u32; 1];
    let mut out = [0u8; 1];
    let sheet = crate::opening::answer(
        Ask::Modules,
        families::unit(),
        file,
        file,
        &mut scratch,
        &mut out,
    );
    sheet.listed
}

// The number of the module at a position of a file; 18 where the file has no such position.
pub fn number_at(file: &[u8], position: usize) -> Result<u16, Refusal>
    ensures { result ≡ found_of (number_at file.now position) }
{
    let mut scratch = [0u32; 1];
    let mut out = [0u8; 1];
    let sheet = crate::opening::answer(
        Ask::NumberAt(position),
        families::unit(),
        file,
        file,
        &mut scratch,
        &mut out,
    );
    sheet.named
}

// The outputs of the module of a number for the values of its inputs, as the first bytes of `out`; and how much work the run was.
pub fn evaluate(
    file: &[u8],
    number: u16,
    values: &[u8],
    scratch: &mut [u32],
    out: &mut [u8],
) -> Result<Run, Refusal>
    ensures { Evaluates file.now number values.now scratch.old out.old scratch.new out.new result }
{
    let sheet = crate::opening::answer(
        Ask::Of(Task::Evaluate, number),
        families::unit(),
        file,
        values,
        scratch,
        out,
    );
    sheet.ran
}

// The outputs of the module of a number for rows of values, row by row; and how much work they were.
pub fn evaluate_rows(
    file: &[u8],
    number: u16,
    rows: usize,
    values: &[u8],
    scratch: &mut [u32],
    out: &mut [u8],
) -> Result<Run, Refusal>
    ensures { EvaluatesRows file.now number rows values.now scratch.old out.old scratch.new out.new result }
{
    let sheet = crate::opening::answer(
        Ask::Of(Task::Rows(rows), number),
        families::unit(),
        file,
        values,
        scratch,
        out,
    );
    sheet.ran
}

// The figures of the module of a number, with its delay by a chip family.
pub fn count(
    file: &[u8],
    number: u16,
    family: Family,
    scratch: &mut [u32],
) -> Result<Figures, Refusal>
    ensures { Counts (summary file.now number family.delays (length scratch.old)) scratch.old scratch.new result }
{
    let mut out = [0u8; 1];
    let sheet = crate::opening::answer(
        Ask::Of(Task::Own(Own::Count), number),
        family,
        file,
        file,
        scratch,
        &mut out,
    );
    sheet.counted
}

// The module of a number, flattened into `out`.
pub fn flatten(
    file: &[u8],
    number: u16,
    scratch: &mut [u32],
    out: &mut [u8],
) -> Result<usize, Refusal>
    ensures { Settles (flattening file.now number (length scratch.old) (length out.old))
        scratch.old out.old scratch.new out.new result }
{
    let sheet = crate::opening::answer(
        Ask::Of(Task::Own(Own::Flatten), number),
        families::unit(),
        file,
        file,
        scratch,
        out,
    );
    sheet.wrote
}
