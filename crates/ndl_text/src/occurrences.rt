// Occurrences, a line each.
ghost use Rattle.std.specs.Prelude.{◌≡◌, length};
ghost use Rattle.meaning.specs.Lists.{All};
ghost use Rattle.meaning.specs.Ceilings.{Small};
ghost use Rattle.meaning.specs.Layout.{each, occurrence_numbers};
ghost use Rattle.meaning.specs.Ndl.{occurrence_text, occurrences_text};
ghost use Rattle.bytes_out.specs.Filled.{Put};
ghost use Rattle.write_pieces.specs.Rooms.{Room};
ghost use Rattle.ndl_text.specs.Parts.{driven_text, taken_text};
ghost use Rattle.ndl_text.specs.Standing.{Lines, OccurrenceTold, OccurrencesTold};

use image::places::occurrence_at;
use ndl_pieces::numerals::put_named;
use write_pieces::bytes::copy;

// How far the text has come: the place of the file's next number, and the place behind the text.
#[derive(Clone, Copy)]
pub struct Pen {
    pub from: usize,
    pub at: usize,
}

// `G0(N2) = `
fn put_driven(position: u16, drives: &[u16], out: &mut [u8], at: usize) -> usize
    requires { Small position × All Small drives.now × Room (driven_text position drives.now) out.old at }
    ensures { Put (driven_text position drives.now) out.old at out.new result }
{
    let open = put_named(b'G', position, out, at);
    let list = copy(b"(", out, open);
    let close = ndl_pieces::nets::put(drives, out, list);
    copy(b") = ", out, close)
}

// `OR2(N0,N1);`
fn put_taken(names: &[u8], refers: u16, takes: &[u16], out: &mut [u8], at: usize) -> usize
    requires { (length names.now ≡ 128) × Small refers × All Small takes.now × Room (taken_text names.now refers takes.now) out.old at }
    ensures { Put (taken_text names.now refers takes.now) out.old at out.new result }
{
    let open = ndl_pieces::references::put(names, refers, out, at);
    let list = copy(b"(", out, open);
    let close = ndl_pieces::nets::put(takes, out, list);
    copy(b");\n", out, close)
}

// An occurrence whose numbers stand at a place of the file's.
fn put(names: &[u8], numbers: &[u16], from: usize, position: u16, out: &mut [u8], at: usize) -> Pen
    requires { OccurrenceTold names.now numbers.now from position out.old at }
    ensures { (t : OccurrenceTold names.now numbers.now from position out.old at)
        → Lines (occurrence_text names.now position t.o) (occurrence_numbers t.o) from out.old at out.new result }
{
    let place = occurrence_at(numbers, from);
    let first = from + 1;
    let last = first + place.drives;
    let takes = place.from;
    let next = place.to;
    let refers = put_driven(position, &numbers[first..last], out, at);
    let end = put_taken(names, place.refers, &numbers[takes..next], out, refers);
    Pen {
        from: next,
        at: end,
    }
}

// So many occurrences, one behind the other.
pub(crate) fn put_all(
    names: &[u8],
    numbers: &[u16],
    from: usize,
    count: usize,
    out: &mut [u8],
    at: usize,
) -> Pen
    requires { OccurrencesTold names.now numbers.now from count out.old at }
    ensures { (t : OccurrencesTold names.now numbers.now from count out.old at)
        → Lines (occurrences_text names.now 0 t.os) (each occurrence_numbers t.os) from out.old at out.new result }
{
    let mut pen = Pen { from, at };
    for i in 0..count {
        pen = put(names, numbers, pen.from, i as u16, out, pen.at);
    }
    pen
}
