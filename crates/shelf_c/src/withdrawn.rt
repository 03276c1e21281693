// Four-input gates withdrawn: the strict check, and the rewriting into a file that it passes.
ghost use Rattle.std.specs.Prelude.{◌≡◌, length};
ghost use Rattle.meaning.specs.Calls.{out_after};
ghost use Rattle.meaning.specs.Withdrawn.{strict_verdict, rewriting};
ghost use Rattle.refusals.specs.Refused.{number_in, place_in};
ghost use Rattle.answers.specs.Judged.{check_of};
ghost use Rattle.shelf_c.specs.Results.{Reports};

use c_reports::report;

#[unsafe(no_mangle)]
pub extern "C" fn shelf_strict_check(file: &[u8], place: &mut usize) -> u16
    ensures value { result ≡ number_in (check_of (strict_verdict file.now)) }
    ensures place_after { place.new ≡ place_in (check_of (strict_verdict file.now)) }
{
    match shelf::strict_check(file) {
        Ok(()) => {
            *place = 0;
            0
        }
        Err(refusal) => {
            *place = refusal.place;
            refusal.number
        }
    }
}

#[unsafe(no_mangle)]
pub extern "C" fn shelf_rewrite(
    file: &[u8],
    out: &mut [u8],
    written: &mut usize,
    place: &mut usize,
) -> u16
    ensures reports { Reports (rewriting file.now (length out.old)) result written.old written.new place.new }
    ensures out_after { out.new ≡ out_after (rewriting file.now (length out.old)) out.old }
{
    report(shelf::rewrite(file, out), written, place)
}
