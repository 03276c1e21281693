// A text of rows, as functions on slices: its lines to rows of values, and rows of outputs to lines of digits. What a line is and which
// bytes stand for values is said in specs/.
#![tactic(auto)]

mod digits; // digits.rt: rows of outputs to lines
mod judging; // judging.rt: whether a line is a row
mod lines; // lines.rt: lines of a text to rows of values
mod spaces; // spaces.rt: the buffer that a text is read into
mod words; // words.rt: the values of a word

pub use digits::put_lines;
pub use judging::Bad;
pub use lines::{Block, take_rows};
pub use spaces::{carry, end_text};
pub use words::{first_other, put_values};
