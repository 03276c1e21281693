// The bytes of the house's modules whose numbers the group lacks, gathered behind those of the group. The group's numbers are marked in a
// table, so that no module of the house is sought in the group's file.
#![tactic(auto)]

mod marking; // marking.rt: the table
mod gathering; // gathering.rt: the bytes

pub use gathering::{Gathered, gather};
pub use marking::mark;
