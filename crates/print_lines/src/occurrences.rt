// Occurrences, a line each.
ghost use Rattle.std.specs.Prelude.{◌++◌};
ghost use Rattle.meaning.specs.Lists.{All};
ghost use Rattle.meaning.specs.Ceilings.{Small};
ghost use Rattle.meaning.specs.Layout.{each, occurrence_numbers};
ghost use Rattle.meaning.specs.ListPrint.{parted, occurrence_break, occurrence_list};
ghost use Rattle.bytes_out.specs.Filled.{Put};
ghost use Rattle.write_pieces.specs.Rooms.{Room};
ghost use Rattle.print_names.specs.Entries.{leading};
ghost use Rattle.print_lines.specs.Parts.{driven_part, taken_part};
ghost use Rattle.print_lines.specs.Standing.{Lines, OccurrenceTold, OccurrencesTold};

use image::places::occurrence_at;
use ndl_pieces::nets::{put_apart, put_more};
use print_names::{put_break, put_name};
use write_pieces::bytes::copy;

// How far the text has come: the place of the file's next number, and the place behind the text.
#[derive(Clone, Copy)]
pub struct Pen {
    pub from: usize,
    pub at: usize,
}

// `((N2) (`
fn put_driven(drives: &[u16], out: &mut [u8], at: usize) -> usize
    requires { All Small drives.now × Room (driven_part drives.now) out.old at }
    ensures { Put (driven_part drives.now) out.old at out.new result }
{
    let nets = copy(b"((", out, at);
    let end = put_apart(b' ', drives, out, nets);
    copy(b") (", out, end)
}

// `B-XOR N0 N1))`
fn put_taken(refers: u16, takes: &[u16], out: &mut [u8], at: usize) -> usize
    requires { Small refers × All Small takes.now × Room (taken_part refers takes.now) out.old at }
    ensures { Put (taken_part refers takes.now) out.old at out.new result }
{
    let nets = put_name(refers, out, at);
    let end = put_more(b' ', takes, out, nets);
    copy(b"))", out, end)
}

// The occurrence at a position of its module, whose numbers stand at a place of the file's.
fn put(numbers: &[u16], from: usize, position: usize, out: &mut [u8], at: usize) -> Pen
    requires { OccurrenceTold numbers.now from position out.old at }
    ensures { (t : OccurrenceTold numbers.now from position out.old at)
        → Lines (leading occurrence_break position ++ occurrence_list t.entry) (occurrence_numbers t.entry) from out.old at out.new result }
{
    let place = occurrence_at(numbers, from);
    let first = from + 1;
    let last = first + place.drives;
    let takes = place.from;
    let next = place.to;
    let driven = put_break(b"\n   ", position, out, at);
    let refers = put_driven(&numbers[first..last], out, driven);
    let end = put_taken(place.refers, &numbers[takes..next], out, refers);
    Pen {
        from: next,
        at: end,
    }
}

// So many occurrences, one behind the other.
pub(crate) fn put_all(numbers: &[u16], from: usize, count: usize, out: &mut [u8], at: usize) -> Pen
    requires { OccurrencesTold numbers.now from count out.old at }
    ensures { (t : OccurrencesTold numbers.now from count out.old at)
        → Lines (parted occurrence_break occurrence_list t.entries) (each occurrence_numbers t.entries) from out.old at out.new result }
{
    let mut pen = Pen { from, at };
    for i in 0..count {
        pen = put(numbers, pen.from, i, out, pen.at);
    }
    pen
}
