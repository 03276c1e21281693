// The check.
ghost use Rattle.std.specs.Prelude.{◌≡◌};
ghost use Rattle.meaning.specs.Verdict.{verdict};
ghost use Rattle.refusals.specs.Refused.{number_in, place_in};
ghost use Rattle.answers.specs.Judged.{check_of};

#[unsafe(no_mangle)]
pub extern "C" fn shelf_check(file: &[u8], place: &mut usize) -> u16
    ensures value { result ≡ number_in (check_of (verdict file.now)) }
    ensures place_after { place.new ≡ place_in (check_of (verdict file.now)) }
{
    match shelf::check(file) {
        Ok(()) => {
            *place = 0;
            0
        }
        Err(refusal) => {
            *place = refusal.place;
            refusal.number
        }
    }
}
