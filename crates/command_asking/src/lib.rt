// Commands that ask about the modules of a file.
#![tactic(auto)]

pub mod asking; // asking.rt: check, strict, list, count and run
pub mod chips; // chips.rt: families, and list and count by one
mod counted; // counted.rt: the figures of a module
pub mod rows; // rows.rt: rows
mod telling; // telling.rt: rows, how it ended
