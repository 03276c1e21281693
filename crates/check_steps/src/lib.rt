// The steps of the check of a file: one module more is checked and measured, and what was found so far goes on.
#![tactic(auto)]

pub mod found;
pub mod steps;
