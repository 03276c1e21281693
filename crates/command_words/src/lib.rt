// The words of the command `gimlet`: those that it is asked in, and those that it answers in.
#![tactic(auto)]

pub mod help; // help.rt: how each command is asked for
pub mod refusing; // refusing.rt: refusals in words
pub mod words; // words.rt: the words of a command line
