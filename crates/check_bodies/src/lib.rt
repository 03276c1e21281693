// The check of occurrences: rules 11 to 14, their part of the image, and what their references add to the sums of a module.
#![tactic(auto)]

pub mod bodies;
pub mod occurrences;
