// Running a module on rows of values, 256 in one walk: a block of rows is packed into entries, the walk runs on these, and the rows of
// outputs are given back.
#![tactic(auto)]

pub mod blocks;
pub mod outputs;
