// The figures of a module that stands in the image: refusal 21, then its inputs, outputs, tally, gates, expanded size, room, delay, largest
// load and delay by a chip family.
#![tactic(auto)]

pub mod counts;
pub mod figuring;
pub mod here;
