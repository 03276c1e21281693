// The leaves of the check of a file's numbers: lists of nets, references, and the tables that find a module.
#![tactic(auto)]

pub mod lists;
pub mod numbering;
pub mod references;
