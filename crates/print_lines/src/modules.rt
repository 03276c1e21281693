// Modules, a list each.
ghost use Rattle.std.specs.Prelude.{◌++◌};
ghost use Rattle.meaning.specs.Lists.{All};
ghost use Rattle.meaning.specs.Ceilings.{Small};
ghost use Rattle.meaning.specs.Layout.{each, module_numbers};
ghost use Rattle.meaning.specs.ListPrint.{parted, module_break, module_list};
ghost use Rattle.bytes_out.specs.Filled.{Put};
ghost use Rattle.write_pieces.specs.Rooms.{Room};
ghost use Rattle.print_names.specs.Entries.{leading};
ghost use Rattle.print_lines.specs.Parts.{title_part, head_part};
ghost use Rattle.print_lines.specs.Standing.{Lines, ModuleTold, ModulesTold};

use crate::occurrences::Pen;
use image::places::module_at;
use ndl_pieces::nets::put_apart;
use ndl_pieces::numerals::put_named;
use print_names::put_break;
use write_pieces::bytes::copy;

// `(M18 (`
fn put_title(number: u16, out: &mut [u8], at: usize) -> usize
    requires { Small number × Room (title_part number) out.old at }
    ensures { Put (title_part number) out.old at out.new result }
{
    let name = copy(b"(", out, at);
    let end = put_named(b'M', number, out, name);
    copy(b" (", out, end)
}

// What stands in front of the occurrences: `(M18 (N0 N1) (N2 N3)`, a line end, and the bracket.
fn put_head(number: u16, inputs: &[u16], outputs: &[u16], out: &mut [u8], at: usize) -> usize
    requires { Small number × All Small inputs.now × All Small outputs.now × Room (head_part number inputs.now outputs.now) out.old at }
    ensures { Put (head_part number inputs.now outputs.now) out.old at out.new result }
{
    let first = put_title(number, out, at);
    let second = put_apart(b' ', inputs, out, first);
    let third = copy(b") (", out, second);
    let last = put_apart(b' ', outputs, out, third);
    copy(b")\n  (", out, last)
}

// The module at a position of its file, whose numbers stand at a place of the file's.
fn put(numbers: &[u16], from: usize, position: usize, out: &mut [u8], at: usize) -> Pen
    requires { ModuleTold numbers.now from position out.old at }
    ensures { (t : ModuleTold numbers.now from position out.old at)
        → Lines (leading module_break position ++ module_list t.entry) (module_numbers t.entry) from out.old at out.new result }
{
    let header = module_at(numbers, from);
    let inputs = from + 2;
    let last = inputs + header.inputs;
    let outputs = header.from;
    let count = header.to;
    let head = put_break(b"\n ", position, out, at);
    let body = put_head(
        numbers[from],
        &numbers[inputs..last],
        &numbers[outputs..count],
        out,
        head,
    );
    let pen = crate::occurrences::put_all(numbers, count + 1, header.count, out, body);
    let end = copy(b"))", out, pen.at);
    Pen {
        from: pen.from,
        at: end,
    }
}

// So many modules, one behind the other.
pub(crate) fn put_all(numbers: &[u16], from: usize, count: usize, out: &mut [u8], at: usize) -> Pen
    requires { ModulesTold numbers.now from count out.old at }
    ensures { (t : ModulesTold numbers.now from count out.old at)
        → Lines (parted module_break module_list t.entries) (each module_numbers t.entries) from out.old at out.new result }
{
    let mut pen = Pen { from, at };
    for i in 0..count {
        pen = put(numbers, pen.from, i, out, pen.at);
    }
    pen
}
