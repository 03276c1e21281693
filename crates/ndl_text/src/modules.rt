// Modules, a block each.
ghost use Rattle.meaning.specs.Lists.{All};
ghost use Rattle.meaning.specs.Ceilings.{Small};
ghost use Rattle.meaning.specs.Layout.{module_numbers};
ghost use Rattle.meaning.specs.Ndl.{module_text};
ghost use Rattle.bytes_out.specs.Filled.{Put};
ghost use Rattle.write_pieces.specs.Rooms.{Room};
ghost use Rattle.ndl_text.specs.Parts.{title_text, head_text};
ghost use Rattle.ndl_text.specs.Standing.{Lines, ModuleTold};

use crate::occurrences::{Pen, put_all};
use image::places::module_at;
use ndl_pieces::nets::put_line;
use ndl_pieces::numerals::put_named;
use write_pieces::bytes::copy;

// `MODULE M18;`
fn put_title(number: u16, out: &mut [u8], at: usize) -> usize
    requires { Small number × Room (title_text number) out.old at }
    ensures { Put (title_text number) out.old at out.new result }
{
    let name = copy(b"MODULE ", out, at);
    let end = put_named(b'M', number, out, name);
    copy(b";\n", out, end)
}

// The lines in front of the occurrences.
fn put_head(number: u16, inputs: &[u16], outputs: &[u16], out: &mut [u8], at: usize) -> usize
    requires { Small number × All Small inputs.now × All Small outputs.now × Room (head_text number inputs.now outputs.now) out.old at }
    ensures { Put (head_text number inputs.now outputs.now) out.old at out.new result }
{
    let first = put_title(number, out, at);
    let second = put_line(b"INPUTS", inputs, out, first);
    let third = put_line(b"OUTPUTS", outputs, out, second);
    copy(b"LEVEL FUNCTION;\nDEFINE\n", out, third)
}

// A module whose numbers stand at a place of the file's.
pub(crate) fn put(names: &[u8], numbers: &[u16], from: usize, out: &mut [u8], at: usize) -> Pen
    requires { ModuleTold names.now numbers.now from out.old at }
    ensures { (t : ModuleTold names.now numbers.now from out.old at)
        → Lines (module_text names.now t.m) (module_numbers t.m) from out.old at out.new result }
{
    let header = module_at(numbers, from);
    let inputs = from + 2;
    let last = inputs + header.inputs;
    let outputs = header.from;
    let count = header.to;
    let body = put_head(
        numbers[from],
        &numbers[inputs..last],
        &numbers[outputs..count],
        out,
        at,
    );
    let pen = put_all(names, numbers, count + 1, header.count, out, body);
    let end = copy(b"END MODULE;\n\n", out, pen.at);
    Pen {
        from: pen.from,
        at: end,
    }
}
