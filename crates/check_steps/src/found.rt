// What the check of a file found in the modules that are done: all fine, or the refusal with the module's position. Where several modules
// break rules the first one counts; rule 17, a size over its limit, counts only where no other is broken.
ghost use Rattle.std.specs.Prelude.{◌≡◌};
ghost use Rattle.check_steps.specs.Found.{Repeating, Known, over_of};

use refusals::Refusal;

// The size of the module at a position is over its limit: that counts where nothing was found before.
pub fn over(found: Result<(), Refusal>, place: usize) -> Result<(), Refusal>
    ensures { result ≡ over_of found place }
{
    found?;
    Err(Refusal::at(17, place))
}

// What is known before any module is checked: the first one whose number stands on a later module too breaks rule 6 where that is a
// gate's number, else rule 7. Nothing, where no number repeats.
pub fn at_repeat(
    numbers: &[u16],
    starts: &[usize],
    modules: usize,
    repeated: usize,
) -> Result<(), Refusal>
    requires { Repeating numbers.now starts.now modules repeated }
    ensures { (b : Repeating numbers.now starts.now modules repeated) → Known result repeated b.ms }
{
    if modules <= repeated {
        return Ok(());
    }
    let start = starts[repeated];
    let rule = if numbers[start] < 16 { 6 } else { 7 };
    Err(Refusal::at(rule, repeated))
}
