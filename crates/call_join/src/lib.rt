// One file joined of two: the group's modules in order, then the house's whose numbers the group lacks; and the check of it. All is put
// together in a list of the call's own, so that a refusal changes nothing that was lent.
#![tactic(auto)]

ghost use Rattle.meaning.specs.Shelves.{joining};
ghost use Rattle.join_ending.specs.Joins.{Joins};
ghost use Rattle.call_join.specs.Begun.{Begun, join_house, Spaces};
ghost use Rattle.std.specs.Prelude.{◌≤◌, length};

use join_ending::assemble;
use two_files::{ShelfRefusal, Which};
use write_joined::{Gathered, gather, mark};
use write_pieces::bytes::copy;

// The house's modules behind the group's, of which so many are gathered and marked.
fn join_house(
    house: &[u8],
    own: Gathered,
    marks: &[u8],
    numbers: &mut [u16],
    bytes: &mut [u8],
    out: &mut [u8],
) -> Result<usize, ShelfRefusal>
    requires { Begun house.now own marks.now numbers.old bytes.old }
    ensures { (b : Begun house.now own marks.now numbers.old bytes.old)
        → Joins (join_house b.own house.now (length out.old)) out.old out.new result }
{
    let mut names = [0u16; 128];
    let mut places = [0usize; 129];
    let modules = match open_places::note(house, numbers, &mut names, &mut places) {
        Ok(modules) => modules,
        Err(refusal) => {
            return Err(ShelfRefusal {
                which: Which::House,
                refusal,
            });
        }
    };
    let all = gather(house, &names, &places, modules, marks, bytes, own);
    assemble(all, bytes, out)
}

// In lists that are long enough.
fn join_in<const NUMBERS: usize, const BYTES: usize>(
    group: &[u8],
    house: &[u8],
    out: &mut [u8],
) -> Result<usize, ShelfRefusal>
    requires numbers_bound { NUMBERS ≤ 65535 }
    requires bytes_bound { BYTES ≤ 131072 }
    requires spaces { Spaces group.now house.now NUMBERS BYTES }
    ensures { Joins (joining group.now house.now (length out.old)) out.old out.new result }
{
    let mut numbers = [0u16; NUMBERS];
    let mut bytes = [0u8; BYTES];
    let mut names = [0u16; 128];
    let mut places = [0usize; 129];
    let modules = match open_places::note(group, &mut numbers, &mut names, &mut places) {
        Ok(modules) => modules,
        Err(refusal) => {
            return Err(ShelfRefusal {
                which: Which::Group,
                refusal,
            });
        }
    };
    let mut marks = [0u8; 16384];
    mark(&names, modules, &mut marks);
    let first = places[0];
    let at = copy(&group[first..], &mut bytes, 2);
    let own = Gathered { modules, at };
    join_house(house, own, &marks, &mut numbers, &mut bytes, out)
}

// Short files should not pay for clearing long lists.
pub fn join(group: &[u8], house: &[u8], out: &mut [u8]) -> Result<usize, ShelfRefusal>
    ensures { Joins (joining group.now house.now (length out.old)) out.old out.new result }
{
    if group.len() <= 1024 && house.len() <= 1024 {
        return join_in::<1024, 2050>(group, house, out);
    }
    join_in::<65535, 131072>(group, house, out)
}
