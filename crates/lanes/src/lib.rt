// Rows of three values side by side: a word holds one bit for each of 64 rows, and a net has two rails of words, whether its value is
// surely 1 and whether it may be 1.
#![tactic(auto)]

pub mod entry;
pub mod outputs;
pub mod rows;
