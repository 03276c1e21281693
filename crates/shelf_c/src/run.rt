// Modules run and flattened.
ghost use Rattle.std.specs.Prelude.{◌≡◌, length};
ghost use Rattle.meaning.specs.Calls.{evaluation, flattening, out_after, scratch_after};
ghost use Rattle.meaning.specs.Rows.{rows_evaluation};
ghost use Rattle.meaning.specs.Work.{running, rows_running, work_after};
ghost use Rattle.shelf_c.specs.Results.{Reports, ReportsRun};

use c_reports::{report, report_run};

#[unsafe(no_mangle)]
pub extern "C" fn shelf_evaluate(
    file: &[u8],
    number: u16,
    values: &[u8],
    scratch: &mut [u32],
    out: &mut [u8],
    written: &mut usize,
    work: &mut u32,
    place: &mut usize,
) -> u16
    ensures reports_run { ReportsRun (evaluation file.now number values.now (length scratch.old) (length out.old)) (work_after (running file.now number values.now (length scratch.old) (length out.old))) result written.old written.new work.old work.new place.new }
    ensures out_after { out.new ≡ out_after (evaluation file.now number values.now (length scratch.old) (length out.old)) out.old }
    ensures scratch_after { scratch.new ≡ scratch_after (λ w. w.cleared) (evaluation file.now number values.now (length scratch.old) (length out.old)) scratch.old }
{
    report_run(
        shelf::evaluate(file, number, values, scratch, out),
        written,
        work,
        place,
    )
}

#[unsafe(no_mangle)]
pub extern "C" fn shelf_evaluate_rows(
    file: &[u8],
    number: u16,
    rows: usize,
    values: &[u8],
    scratch: &mut [u32],
    out: &mut [u8],
    written: &mut usize,
    work: &mut u32,
    place: &mut usize,
) -> u16
    ensures reports_run { ReportsRun (rows_evaluation file.now number rows values.now (length scratch.old) (length out.old)) (work_after (rows_running file.now number rows values.now (length scratch.old) (length out.old))) result written.old written.new work.old work.new place.new }
    ensures out_after { out.new ≡ out_after (rows_evaluation file.now number rows values.now (length scratch.old) (length out.old)) out.old }
    ensures scratch_after { scratch.new ≡ scratch_after (λ w. w.cleared) (rows_evaluation file.now number rows values.now (length scratch.old) (length out.old)) scratch.old }
{
    report_run(
        shelf::evaluate_rows(file, number, rows, values, scratch, out),
        written,
        work,
        place,
    )
}

#[unsafe(no_mangle)]
pub extern "C" fn shelf_flatten(
    file: &[u8],
    number: u16,
    scratch: &mut [u32],
    out: &mut [u8],
    written: &mut usize,
    place: &mut usize,
) -> u16
    ensures reports { Reports (flattening file.now number (length scratch.old) (length out.old)) result written.old written.new place.new }
    ensures out_after { out.new ≡ out_after (flattening file.now number (length scratch.old) (length out.old)) out.old }
    ensures scratch_after { scratch.new ≡ scratch_after (λ w. w.cleared) (flattening file.now number (length scratch.old) (length out.old)) scratch.old }
{
    report(shelf::flatten(file, number, scratch, out), written, place)
}
