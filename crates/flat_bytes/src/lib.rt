// The bytes of a flattened file: lists of nets, gates, and what stands in front of the gates.
#![tactic(auto)]

pub mod front;
pub mod pen;
pub mod slots;
