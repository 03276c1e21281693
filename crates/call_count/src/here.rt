// The count of a module where it stands, with loads of its own.
ghost use Rattle.std.specs.Prelude.{◌≤◌, length};
ghost use Rattle.meaning.specs.Family.{summary_on};
ghost use Rattle.open_finding.specs.Standing.{Standing};
ghost use Rattle.call_count.specs.Answers.{Counts};

use crate::counts::Figures;
use families::Family;
use image::Image;
use open_finding::Site;
use refusals::Refusal;

// There is a load for each number of the image: in a list of N.
pub fn count_in<const N: usize>(
    image: Image<'_>,
    site: Site,
    family: Family,
    scratch: &mut [u32],
) -> Result<Figures, Refusal>
    requires loads_bound { N ≤ 65535 }
    requires standing { Standing image.numbers.now image.starts.now image.nets.now site }
    requires image_len_bound { length image.numbers.now ≤ N }
    ensures { (s : Standing image.entry.numbers.now image.entry.starts.now image.entry.nets.now site)
        → Counts (summary_on family.delays site.number (length scratch.old) s.ms s.found.m) scratch.old scratch.new result }
{
    let mut loads = [0u32; N];
    crate::figuring::count_at(image, site, family, scratch, &mut loads)
}
