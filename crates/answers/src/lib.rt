// What calls answer: `Ok` with what was asked for, or the refusal (`refusals`). specs/ says for each kind of call which.
#![tactic(auto)]

// A run that was answered: how many bytes it wrote, and how many occurrences it ran.
#[derive(Clone, Copy, PartialEq, Eq, Debug)]
pub struct Run {
    pub written: usize,
    pub work: u32,
}
