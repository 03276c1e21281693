// A module of a file that stands ready: the position of a number, the number at a position, and what is known of a module there.
#![tactic(auto)]

ghost use Rattle.std.specs.Prelude.{◌<◌, ◌≡◌, length, drop};
ghost use Rattle.meaning.specs.Calls.{first_number};
ghost use Rattle.answers.specs.Contents.{found_of};
ghost use Rattle.open_finding.specs.Finding.{Searchable, Finds, site_of};

use refusals::Refusal;

// A module where it stands, and what was measured of it.
#[derive(Clone, Copy, PartialEq, Eq, Debug)]
pub struct Site {
    pub position: usize,
    pub number: u16,
    pub size: u32,
    pub room: u32,
}

// Which module a number means: the first that has it.
pub fn find(names: &[u16], modules: usize, number: u16) -> Option<usize>
    requires { Searchable names.now modules }
    ensures { (s : Searchable names.now modules) → Finds result s.ms number }
{
    for k in 0..modules {
        if names[k] == number {
            return Some(k);
        }
    }
    None
}

// The number of the module at a position; 18 where the file has no such position.
pub fn number_at(names: &[u16], modules: usize, position: usize) -> Result<u16, Refusal>
    requires { Searchable names.now modules }
    ensures { (s : Searchable names.now modules) → result ≡ found_of (first_number (drop position s.ms)) }
{
    if position < modules {
        Ok(names[position])
    } else {
        Err(Refusal {
            number: 18,
            place: 0,
        })
    }
}

// The module at a position, with its size and its room from the tables.
pub fn site_at(position: usize, number: u16, sizes: &[u32], rooms: &[u32]) -> Site
    requires { (position < length sizes.now) × (position < length rooms.now) }
    ensures { result ≡ site_of position number sizes.now rooms.now }
{
    Site {
        position,
        number,
        size: sizes[position],
        room: rooms[position],
    }
}
