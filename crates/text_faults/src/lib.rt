// What is at fault in a module that was refused with 11 to 14: the first occurrence that breaks one of these rules, and the entry of it that does
// (specs/Faults.antt). That it is the one for which the check refuses is a law (specs/Located.antt). The numbers of the module are passed over
// once, with a table of marks for the nets that are known.
#![tactic(auto)]

mod walks; // walks.rt: occurrence after occurrence

pub use walks::first_fault;

// The occurrence, how many nets it drives, and how many of its atoms stand in front of the one at fault.
#[derive(Clone, Copy, PartialEq, Eq, Debug)]
pub struct Fault {
    pub occurrence: usize,
    pub driven: usize,
    pub atom: usize,
}
