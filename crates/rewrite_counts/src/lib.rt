// How many of the four withdrawn gates each module of a checked file has and reaches, and which ceilings the rewritten file breaks. All of
// it comes from the image and from tables by position; nothing is written yet. No count of nets goes with the numbers and the starts, so a
// caller need have no whole `Image`.
#![tactic(auto)]

pub mod ceilings;
pub mod fours;
