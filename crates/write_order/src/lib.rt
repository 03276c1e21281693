// Writers: adders, fast ones too, leading-zero counters and ALUs to order. Nothing lent is touched before the call is sure to be answered: where the buffer may
// be too short for the file, its bytes are written into a list of the writer's own first.
#![tactic(auto)]

pub mod answer;
mod order;

pub use order::{adder, alu, counter, fast_adder};
