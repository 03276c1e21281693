// A listing for the board maker.
ghost use Rattle.std.specs.Prelude.{◌≡◌, length};
ghost use Rattle.meaning.specs.Calls.{out_after};
ghost use Rattle.meaning.specs.Ndl.{ndl_listing};
ghost use Rattle.shelf_c.specs.Results.{Reports};

use c_reports::report;

#[unsafe(no_mangle)]
pub extern "C" fn shelf_write_ndl(
    file: &[u8],
    names: &[u8],
    out: &mut [u8],
    written: &mut usize,
    place: &mut usize,
) -> u16
    ensures reports { Reports (ndl_listing file.now names.now (length out.old)) result written.old written.new place.new }
    ensures out_after { out.new ≡ out_after (ndl_listing file.now names.now (length out.old)) out.old }
{
    report(shelf::write_ndl(file, names, out), written, place)
}
