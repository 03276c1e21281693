// Pieces of a listing's text: numbers, nets, and what an occurrence refers to. Each is written at a place of a buffer; the answer is the place
// behind it.
#![tactic(auto)]

pub mod nets;
pub mod numerals;
pub mod references;
