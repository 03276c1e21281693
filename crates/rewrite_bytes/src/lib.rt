// The bytes of a rewritten file, from the numbers of the file: the nets that a module uses, the lowest unused ones, and the occurrences with
// three gates in place of each withdrawn one.
#![tactic(auto)]

pub mod bodies;
pub mod files;
pub mod three;
pub mod used;
