// The look-up of a module in two files: out of the group's if it has the number, otherwise out of the house's. Each file needs only to read.
#![tactic(auto)]

mod seeking; // seeking.rt: one file

ghost use Rattle.std.specs.Prelude.{◌≡◌};
ghost use Rattle.meaning.specs.Shelves.{look_up, handed};
ghost use Rattle.call_look_up.specs.Looking.{chosen_of, looked_of};

pub use crate::seeking::Stretch;
use crate::seeking::seek;
use refusals::Refusal;
use two_files::{ShelfRefusal, Which};

// Where the bytes of a module stand, in which of the two files.
#[derive(Clone, Copy, PartialEq, Eq, Debug)]
pub enum Looked {
    Group(Stretch),
    House(Stretch),
}

// The group's file comes first, with its refusal and with its module.
fn choose(
    group: Result<Option<Stretch>, Refusal>,
    house: Result<Option<Stretch>, Refusal>,
) -> Result<Looked, ShelfRefusal>
    ensures { result ≡ chosen_of group house }
{
    let which = Which::Group;
    let own = group.map_err(|refusal| ShelfRefusal { which, refusal })?;
    let which = Which::House;
    let other = house.map_err(|refusal| ShelfRefusal { which, refusal })?;
    match (own, other) {
        (Some(stretch), _) => Ok(Looked::Group(stretch)),
        (None, Some(stretch)) => Ok(Looked::House(stretch)),
        (None, None) => Err(ShelfRefusal {
            which: Which::Neither,
            refusal: Refusal::at(18, 0),
        }),
    }
}

// Which of the two files the module is in, and where.
pub fn which_shelf(group: &[u8], house: &[u8], number: u16) -> Result<Looked, ShelfRefusal>
    ensures { result ≡ looked_of (look_up group.now house.now number) }
{
    choose(seek(group, number), seek(house, number))
}

// The module's bytes: a part of one of the two files, an empty one if refused.
pub fn look_up<'a>(group: &'a [u8], house: &'a [u8], number: u16) -> &'a [u8]
    ensures { result.now ≡ handed (look_up group.now house.now number).decision }
{
    match which_shelf(group, house, number) {
        Ok(Looked::Group(Stretch { start, length })) => &group[start..start + length],
        Ok(Looked::House(Stretch { start, length })) => &house[start..start + length],
        Err(_) => &group[..0],
    }
}
