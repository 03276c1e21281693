// Pieces of a file that is written to order. Each is written at a place; the answer is the place behind the piece.
#![tactic(auto)]

pub mod bytes;
pub mod gates;
pub mod numbers;
pub mod rows;
