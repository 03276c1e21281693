// Sequences of bases as a file of text holds them, plain or in FASTA: read block by block, however long the file is, and each record filed
// once it is complete. What the records of a file are and what they come to is said in specs/.
#![tactic(auto)]

mod adding; // adding.rt: a table added to the sums
mod lines; // lines.rt: what a byte is, by the line that it stands in
mod reading; // reading.rt: the bytes of a file, block by block
mod records; // records.rt: a record, base by base, and filed

pub use reading::{Reading, begin, finish, read_block};
pub use records::{Refused, Tally};
