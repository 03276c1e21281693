// The check of a file's numbers: rules 6 to 17 in order, and the image on which everything later runs.
#![tactic(auto)]

pub mod files;
