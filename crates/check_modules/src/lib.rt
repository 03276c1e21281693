// The check of a module: rules 6 and 8 to 16 in order, and its part of the image.
#![tactic(auto)]

pub mod heads;
pub mod modules;
