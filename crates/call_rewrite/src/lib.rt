// Four-input gates withdrawn: the strict check, which refuses a file that uses one of them, and the rewriting into a file that it passes.
#![tactic(auto)]

mod deciding; // deciding.rt: 4, 16 and 17 of the new file
mod rewriting; // rewriting.rt: the new file written, 1 and 22
mod strict; // strict.rt: 28

pub use rewriting::rewrite;
pub use strict::strict_check;
