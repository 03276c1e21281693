// Lists of nets, the leaves of the check: whether one repeats a net, and the table that finds a net's slot by its number.
#![tactic(auto)]

pub mod repeats;
pub mod table;
