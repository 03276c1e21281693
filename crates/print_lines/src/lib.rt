// The text of a file in the published list form, put into a buffer piece by piece. Each piece is written at a place; the answer is the place
// behind it.
#![tactic(auto)]

mod file;
mod modules;
mod occurrences;

pub use file::put_file;
