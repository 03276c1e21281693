// The parts of a file, read byte by byte: numbers, counts, lists of nets, occurrences and modules.
#![tactic(auto)]

pub mod number;
pub mod parts;
pub mod way;
