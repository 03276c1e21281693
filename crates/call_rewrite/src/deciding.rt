// What is to be done with a file: it stays as it is where no module uses one of the four gates. Else the ceilings 4, 16 and 17 of the new
// file, in that order, each over the whole file before the next. They come from counts, before anything is written.
ghost use Rattle.std.specs.Prelude.{length};
ghost use Rattle.call_rewrite.specs.Growing.{Grown, Decides};

use image::Image;
use refusals::Refusal;

// What becomes of a file that is not refused.
#[derive(Clone, Copy, PartialEq, Eq, Debug)]
pub(crate) enum Decided {
    Stays,
    Go,
}

// On a file that stands in the image; the table gets how many of the four gates each module has.
pub(crate) fn decide(
    image: Image<'_>,
    sizes: &[u32],
    modules: usize,
    own: &mut [u32],
) -> Result<Decided, Refusal>
    requires { Grown image.numbers.now image.starts.now image.nets.now sizes.now modules (length own.old) }
    ensures { (g : Grown image.entry.numbers.now image.entry.starts.now image.entry.nets.now sizes.now modules (length own.old))
        → Decides g.ms own.new result }
{
    let mut reached = [0u32; 128];
    rewrite_counts::fours::count_fours(image.numbers, image.starts, modules, own, &mut reached);
    if rewrite_counts::ceilings::first_user(own, modules).is_none() {
        return Ok(Decided::Stays);
    }
    if !rewrite_counts::ceilings::few_occurrences(image.numbers, image.starts, own, modules) {
        return Err(Refusal {
            number: 4,
            place: 0,
        });
    }
    match rewrite_counts::ceilings::first_crowded(image.nets, own, modules) {
        Some(place) => Err(Refusal { number: 16, place }),
        None => match rewrite_counts::ceilings::last_large(sizes, &reached, modules) {
            Some(place) => Err(Refusal { number: 17, place }),
            None => Ok(Decided::Go),
        },
    }
}
