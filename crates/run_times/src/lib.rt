// The walk of a run that works out when each net arrives, twice at once: with one for every gate, and by the delays of a chip family. The two
// arrivals of a net stand at its slot, each in a list of its own.
#![tactic(auto)]

pub mod gate;
pub mod walk;
