// A refusal of a call on two files, the group's before the house's: what is broken, and in which of them.
#![tactic(auto)]

ghost use Rattle.std.specs.Prelude.{◌≡◌};
ghost use Rattle.two_files.specs.Whose.{which_number};

use refusals::Refusal;

// Which of the two files is meant. A refusal of what is made of both is about neither.
#[derive(Clone, Copy, PartialEq, Eq, Debug)]
pub enum Which {
    Neither,
    Group,
    House,
}

// The numbers that a C caller gets.
impl From<Which> for u16 {
    fn from(which: Which) -> u16
        ensures { result ≡ which_number which }
    {
        match which {
            Which::Neither => 0,
            Which::Group => 1,
            Which::House => 2,
        }
    }
}

#[derive(Clone, Copy, PartialEq, Eq, Debug)]
pub struct ShelfRefusal {
    pub which: Which,
    pub refusal: Refusal,
}
