// What a count answers.
// How many gates of each kind. Adding to it is not public: that is the engines' own record.
#[derive(Clone, Copy, PartialEq, Eq, Debug)]
pub struct Tally {
    pub counts: [u32; 16],
}

// The figures of a module: `delay` is its unit delay, `family` its delay by a chip family.
#[derive(Clone, Copy, PartialEq, Eq, Debug)]
pub struct Figures {
    pub inputs: u32,
    pub outputs: u32,
    pub tally: Tally,
    pub gates: u32,
    pub size: u32,
    pub room: u32,
    pub delay: u32,
    pub load: u32,
    pub family: u32,
}
