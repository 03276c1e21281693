// What the C face hands back of the library's answers: numbers through pointers, and of a refusal none but the place.
#![tactic(auto)]

ghost use Rattle.std.specs.Prelude.{◌≡◌};
ghost use Rattle.refusals.specs.Refused.{number_in, place_in};
ghost use Rattle.answers.specs.Running.{writing_in};
ghost use Rattle.c_reports.specs.Read.{answer_or, work_or, figures_of};

use answers::Run;
use call_count::counts::Figures;
use refusals::Refusal;

// The three numbers of an answer; of a refusal only two.
pub fn report<T: Copy>(answer: Result<T, Refusal>, answered: &mut T, place: &mut usize) -> u16
    ensures value { result ≡ number_in answer }
    ensures answered_after { answered.new ≡ answer_or answer answered.old }
    ensures place_after { place.new ≡ place_in answer }
{
    match answer {
        Ok(found) => {
            *answered = found;
            *place = 0;
            0
        }
        Err(refusal) => {
            *place = refusal.place;
            refusal.number
        }
    }
}

// The four numbers of a run that was answered; of a refusal only two.
pub fn report_run(
    answer: Result<Run, Refusal>,
    written: &mut usize,
    work: &mut u32,
    place: &mut usize,
) -> u16
    ensures value { result ≡ number_in answer }
    ensures written_after { written.new ≡ answer_or (writing_in answer) written.old }
    ensures work_after { work.new ≡ work_or answer work.old }
    ensures place_after { place.new ≡ place_in answer }
{
    match answer {
        Ok(run) => {
            *written = run.written;
            *work = run.work;
            *place = 0;
            0
        }
        Err(found) => {
            *place = found.place;
            found.number
        }
    }
}

// The figures in the order of include/shelf.h: inputs, outputs, gates, expanded size, room, delay, largest load and the family's delay.
pub fn in_order(found: Figures) -> [u32; 8]
    ensures { result ≡ figures_of found }
{
    [
        found.inputs,
        found.outputs,
        found.gates,
        found.size,
        found.room,
        found.delay,
        found.load,
        found.family,
    ]
}
