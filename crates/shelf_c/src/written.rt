// Modules written to order.
ghost use Rattle.std.specs.Prelude.{◌≡◌, length};
ghost use Rattle.meaning.specs.Adder.{adder as adderOf};
ghost use Rattle.meaning.specs.FastAdder.{fast_adder as fastAdderOf};
ghost use Rattle.meaning.specs.Alu.{alu as aluOf};
ghost use Rattle.meaning.specs.Counter.{counter as counterOf};
ghost use Rattle.meaning.specs.Calls.{writing, out_after};
ghost use Rattle.shelf_c.specs.Results.{Reports};

use c_reports::report;

#[unsafe(no_mangle)]
pub extern "C" fn shelf_adder(
    width: usize,
    out: &mut [u8],
    written: &mut usize,
    place: &mut usize,
) -> u16
    ensures reports { Reports (writing adderOf width (length out.old)) result written.old written.new place.new }
    ensures out_after { out.new ≡ out_after (writing adderOf width (length out.old)) out.old }
{
    report(shelf::adder(width, out), written, place)
}

#[unsafe(no_mangle)]
pub extern "C" fn shelf_fast_adder(
    width: usize,
    out: &mut [u8],
    written: &mut usize,
    place: &mut usize,
) -> u16
    ensures reports { Reports (writing fastAdderOf width (length out.old)) result written.old written.new place.new }
    ensures out_after { out.new ≡ out_after (writing fastAdderOf width (length out.old)) out.old }
{
    report(shelf::fast_adder(width, out), written, place)
}

#[unsafe(no_mangle)]
pub extern "C" fn shelf_alu(
    width: usize,
    out: &mut [u8],
    written: &mut usize,
    place: &mut usize,
) -> u16
    ensures reports { Reports (writing aluOf width (length out.old)) result written.old written.new place.new }
    ensures out_after { out.new ≡ out_after (writing aluOf width (length out.old)) out.old }
{
    report(shelf::alu(width, out), written, place)
}

#[unsafe(no_mangle)]
pub extern "C" fn shelf_counter(
    width: usize,
    out: &mut [u8],
    written: &mut usize,
    place: &mut usize,
) -> u16
    ensures reports { Reports (writing counterOf width (length out.old)) result written.old written.new place.new }
    ensures out_after { out.new ≡ out_after (writing counterOf width (length out.old)) out.old }
{
    report(shelf::counter(width, out), written, place)
}
