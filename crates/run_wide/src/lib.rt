// What a gate makes of entries of 256 rows: what `run_walk` works out with one value a net, for all the rows at once.
#![tactic(auto)]

pub mod gate;
