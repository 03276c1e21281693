// A text of rows, read from a source and run on a module in blocks of at most 1,024, and the lines of its outputs, written to another.
// Lines and rows are taken and made by `row_lines`; here they are only read, run, counted and written.
#![tactic(auto)]

mod blocks; // blocks.rt: a block of rows
mod reading; // reading.rt: parts of a buffer
mod states; // states.rt: what is run, how far it is, and how it ended
mod steps; // steps.rt: step by step

pub use reading::front;
pub use states::{Done, Stopped, Task};
pub use steps::run_text;
