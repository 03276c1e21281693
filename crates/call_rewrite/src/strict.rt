// The strict check: 1 to 17, then 28 at the first module that uses a withdrawn gate, whether anything reaches it or not.
ghost use Rattle.std.specs.Prelude.{◌≤◌, ◌≡◌};
ghost use Rattle.meaning.specs.Withdrawn.{withdrawn_verdict, strict_verdict};
ghost use Rattle.answers.specs.Judged.{check_of};
ghost use Rattle.open_file.specs.Spaces.{Clear};
ghost use Rattle.call_rewrite.specs.Standing.{Stood};

use refusals::Refusal;

// A file that stands in the image.
fn judge(image: &[u16], starts: &[usize], modules: usize) -> Result<(), Refusal>
    requires { Stood image.now starts.now modules }
    ensures { (s : Stood image.now starts.now modules) → result ≡ check_of (withdrawn_verdict 0 s.ms) }
{
    let mut own = [0u32; 128];
    let mut reached = [0u32; 128];
    rewrite_counts::fours::count_fours(image, starts, modules, &mut own, &mut reached);
    match rewrite_counts::ceilings::first_user(&own, modules) {
        None => Ok(()),
        Some(place) => Err(Refusal { number: 28, place }),
    }
}

// In an image of so many numbers and tables of so many entries.
fn strict_in<const NUMBERS: usize, const TABLE: usize>(file: &[u8]) -> Result<(), Refusal>
    requires numbers_bound { NUMBERS ≤ 65535 }
    requires table_bound { TABLE ≤ 16384 }
    requires clear { Clear file.now NUMBERS TABLE }
    ensures { result ≡ check_of (strict_verdict file.now) }
{
    let mut image = [0u16; NUMBERS];
    let mut starts = [0usize; 128];
    let mut names = [0u16; 128];
    let mut nets = [0usize; 128];
    let mut sizes = [0u32; 128];
    let mut rooms = [0u32; 128];
    let mut first = [0u16; TABLE];
    let mut slots = [0u32; TABLE];
    let modules = open_file::prepare(
        file,
        &mut image,
        &mut starts,
        &mut names,
        &mut nets,
        &mut sizes,
        &mut rooms,
        &mut first,
        &mut slots,
    )?;
    judge(&image, &starts, modules)
}

// A short file should not pay for clearing long lists.
pub fn strict_check(file: &[u8]) -> Result<(), Refusal>
    ensures { result ≡ check_of (strict_verdict file.now) }
{
    if 1024 < file.len() {
        return strict_in::<65535, 16384>(file);
    }
    if open_shortness::is_short(file) {
        strict_in::<1024, 512>(file)
    } else {
        strict_in::<65535, 16384>(file)
    }
}
