// The check: whether a file is accepted, and if not, the one refusal of 1 to 17 with its place.
ghost use Rattle.std.specs.Prelude.{◌≡◌};
ghost use Rattle.meaning.specs.Verdict.{verdict};
ghost use Rattle.answers.specs.Judged.{check_of};

use refusals::Refusal;

// A file is accepted exactly where its modules can be counted, and refused as that is.
pub fn check(file: &[u8]) -> Result<(), Refusal>
    ensures { result ≡ check_of (verdict file.now) }
{
    call_door::modules(file)?;
    Ok(())
}
