// The walk that a run of a module is, on the image of a checked file: what happens at a gate, copies from slot to slot, and a module and
// its occurrences, evaluated through each other.
#![tactic(auto)]

pub mod gate;
pub mod slots;
pub mod walk;
pub mod work;
