// The files that the command is asked about.
#![tactic(auto)]

pub mod answered; // answered.rt: the library's answers, as results
pub mod failing; // failing.rt: why a command was not carried out
pub mod files; // files.rt: bytes in, bytes out
pub mod texts; // texts.rt: texts in the place of files
