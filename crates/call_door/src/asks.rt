// What can be asked of a file, and the sheet that an answer is written on.
ghost use Rattle.std.specs.Prelude.{◌≡◌};
ghost use Rattle.call_door.specs.Asks.{refused_sheet};

use answers::Run;
use call_count::counts::Figures;
use refusals::Refusal;

// What is asked of a module, and done in lists of its own.
#[derive(Clone, Copy)]
pub enum Own {
    Count,
    Flatten,
}

// What is asked of a module.
#[derive(Clone, Copy)]
pub enum Task {
    Evaluate,
    Rows(usize),
    Own(Own),
}

// What is asked of a file.
#[derive(Clone, Copy)]
pub enum Ask {
    Modules,
    NumberAt(usize),
    Of(Task, u16),
}

// A field for each kind of answer. A refusal is in all of them, an answer in its own.
#[derive(Clone, Copy)]
pub struct Sheet {
    pub ran: Result<Run, Refusal>,
    pub counted: Result<Figures, Refusal>,
    pub wrote: Result<usize, Refusal>,
    pub listed: Result<usize, Refusal>,
    pub named: Result<u16, Refusal>,
}

pub(crate) fn refused(refusal: Refusal) -> Sheet
    ensures { result ≡ refused_sheet refusal }
{
    Sheet {
        ran: Err(refusal),
        counted: Err(refusal),
        wrote: Err(refusal),
        listed: Err(refusal),
        named: Err(refusal),
    }
}

// Of an answer in its own field nobody reads the others.
fn blank() -> Sheet {
    refused(Refusal {
        number: 0,
        place: 0,
    })
}

pub(crate) fn ran(ran: Result<Run, Refusal>) -> Sheet
    ensures { result.ran ≡ ran }
{
    Sheet { ran, ..blank() }
}

pub(crate) fn counted(counted: Result<Figures, Refusal>) -> Sheet
    ensures { result.counted ≡ counted }
{
    Sheet { counted, ..blank() }
}

pub(crate) fn wrote(wrote: Result<usize, Refusal>) -> Sheet
    ensures { result.wrote ≡ wrote }
{
    Sheet { wrote, ..blank() }
}

pub(crate) fn listed(listed: Result<usize, Refusal>) -> Sheet
    ensures { result.listed ≡ listed }
{
    Sheet { listed, ..blank() }
}

pub(crate) fn named(named: Result<u16, Refusal>) -> Sheet
    ensures { result.named ≡ named }
{
    Sheet { named, ..blank() }
}
