// Commands that make a file or a text, and those that file words.
#![tactic(auto)]

pub mod listing; // listing.rt: a listing for a board maker
pub mod making; // making.rt: rewrite, flatten, the adders, the ALU and counter
pub mod placing; // placing.rt: file and file-sequence
pub mod printing; // printing.rt: a file as a text
pub mod shelves; // shelves.rt: find and join
