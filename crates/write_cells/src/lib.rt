// What module 48 of the ALU is made of (docs/ALU.md): the modules of its control and of its cell, and its rows of occurrences.
#![tactic(auto)]

pub mod parts;
pub mod rows;
