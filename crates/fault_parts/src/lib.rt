// What the search for a fault is made of: which nets of a list are known or new, by a table of marks; where the modules of a file stand in its
// numbers; and whether an occurrence fits what it refers to. Each list is passed over once.
#![tactic(auto)]

pub mod marks; // marks.rt: the table of marks
pub mod modules; // modules.rt: where the modules stand, and what an occurrence refers to
