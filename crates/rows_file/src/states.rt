// What is run, how far it is, and how it ended.
use refusals::Refusal;
use row_lines::Bad;

// The module that is run: its number, and how many inputs and outputs it has.
#[derive(Clone, Copy, PartialEq, Eq, Debug)]
pub struct Task {
    pub number: u16,
    pub inputs: usize,
    pub outputs: usize,
}

// All rows are done, and the occurrences that they ran.
#[derive(Clone, Copy, PartialEq, Eq, Debug)]
pub struct Done {
    pub rows: u64,
    pub work: u64,
}

// Why it ended early. A line that is bad, or too long for the buffer, has so many lines in front of it; a refusal so many rows and values in
// front of its block.
#[derive(Clone, Copy, PartialEq, Eq, Debug)]
pub enum Stopped {
    Unread,
    Unwritten,
    Bad(u64, Bad),
    Long(u64),
    Refused {
        refusal: Refusal,
        rows: u64,
        values: u64,
    },
}

// How far it is. The text that is read and not taken stands in the buffer from a place up to another; the rest of it may be over. So many
// rows, of so many values, are done, and ran so many occurrences.
#[derive(Clone, Copy, PartialEq, Eq, Debug)]
pub struct Progress {
    pub at: usize,
    pub filled: usize,
    pub over: bool,
    pub rows: u64,
    pub values: u64,
    pub work: u64,
}
