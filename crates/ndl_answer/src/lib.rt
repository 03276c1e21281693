// What a listing answers of a checked file, from its own numbers. The text goes straight to the lent buffer where that is long enough for any text of
// such a file, and otherwise through a list of the call's own, so that a refusal changes nothing that was lent.
#![tactic(auto)]

mod listing; // listing.rt: 29
mod telling; // telling.rt: 22, and the text

pub use listing::list;
