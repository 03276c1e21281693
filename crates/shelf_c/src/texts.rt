// A text in the published list form, read to a file, and a file printed as such a text.
ghost use Rattle.std.specs.Prelude.{◌≡◌, length};
ghost use Rattle.meaning.specs.Calls.{out_after};
ghost use Rattle.meaning.specs.ListCall.{list_reading};
ghost use Rattle.meaning.specs.ListPrint.{list_printing};
ghost use Rattle.shelf_c.specs.Results.{Reports};

use c_reports::report;

#[unsafe(no_mangle)]
pub extern "C" fn shelf_read_text(
    text: &[u8],
    out: &mut [u8],
    written: &mut usize,
    place: &mut usize,
) -> u16
    ensures reports { Reports (list_reading text.now (length out.old)) result written.old written.new place.new }
    ensures out_after { out.new ≡ out_after (list_reading text.now (length out.old)) out.old }
{
    report(shelf::read_text(text, out), written, place)
}

#[unsafe(no_mangle)]
pub extern "C" fn shelf_print_text(
    file: &[u8],
    out: &mut [u8],
    written: &mut usize,
    place: &mut usize,
) -> u16
    ensures reports { Reports (list_printing file.now (length out.old)) result written.old written.new place.new }
    ensures out_after { out.new ≡ out_after (list_printing file.now (length out.old)) out.old }
{
    report(shelf::print_text(file, out), written, place)
}
