// What an occurrence refers to, by name, and what stands between two entries of a list: pieces of a printed text, each written at a place; the answer is
// the place behind it.
#![tactic(auto)]

ghost use Rattle.meaning.specs.Ceilings.{Small};
ghost use Rattle.meaning.specs.ListPrint.{name_of};
ghost use Rattle.bytes_out.specs.Filled.{Put};
ghost use Rattle.write_pieces.specs.Rooms.{Room};
ghost use Rattle.print_names.specs.Entries.{leading};

use write_pieces::bytes::copy;

// A gate by the name that the reader knows it by, a module by its number. The names stand as a listing for the board maker has them lent.
pub fn put_name(number: u16, out: &mut [u8], at: usize) -> usize
    requires { Small number × Room (name_of number) out.old at }
    ensures { Put (name_of number) out.old at out.new result }
{
    let names =
        b"B-BUF   B-NOT   B-NAND  B-NAND3 B-NAND4 B-OR    B-OR3   B-OR4   B-EQV   B-XOR   B-AND   B-AND3  B-AND4  B-NOR   B-NOR3  B-NOR4  ";
    ndl_pieces::references::put(names, number, out, at)
}

// In front of all entries but the first.
pub fn put_break(between: &[u8], position: usize, out: &mut [u8], at: usize) -> usize
    requires { Room (leading between.now position) out.old at }
    ensures { Put (leading between.now position) out.old at out.new result }
{
    if position < 1 {
        return at;
    }
    copy(between, out, at)
}
