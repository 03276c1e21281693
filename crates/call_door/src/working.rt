// What is asked of a module that stands in the image.
ghost use Rattle.std.specs.Prelude.{ℕ, ◌≤◌, List, length, ◌≡◌, true};
ghost use Rattle.open_finding.specs.Standing.{Standing};
ghost use Rattle.call_door.specs.Asks.{InShort, Done};

use crate::asks::{Own, Sheet, Task};
use families::Family;
use image::Image;
use open_finding::Site;

// Whether short lists serve on a module of a short file: for a count they always do, since loads stand where numbers of the image do; for a
// flattening where the module is small.
fn in_short(own: Own, site: Site) -> bool
    ensures { result ≡ true → InShort own site }
{
    let size = site.size;
    let room = site.room;
    match own {
        Own::Count => true,
        Own::Flatten => size <= 832 && room <= 1024,
    }
}

// On a module of a short file, in short lists.
fn own_short(
    own: Own,
    image: Image<'_>,
    site: Site,
    family: Family,
    scratch: &mut [u32],
    out: &mut [u8],
) -> Sheet
    requires standing { Standing image.numbers.now image.starts.now image.nets.now site }
    requires image_len_bound { length image.numbers.now ≤ 1024 }
    requires in_short { InShort own site }
    ensures { (s : Standing image.entry.numbers.now image.entry.starts.now image.entry.nets.now site)
        → (values : List ℕ) → Done (Task.Own own) family.delays site.number values scratch.old out.old s.ms s.found.m scratch.new out.new result }
{
    match own {
        Own::Count => crate::asks::counted(call_count::here::count_in::<1024>(
            image, site, family, scratch,
        )),
        Own::Flatten => crate::asks::wrote(call_flatten::flatten_small(image, site, scratch, out)),
    }
}

// On any module.
fn own_long(
    own: Own,
    image: Image<'_>,
    site: Site,
    family: Family,
    scratch: &mut [u32],
    out: &mut [u8],
) -> Sheet
    requires standing { Standing image.numbers.now image.starts.now image.nets.now site }
    requires image_len_bound { length image.numbers.now ≤ 65535 }
    ensures { (s : Standing image.entry.numbers.now image.entry.starts.now image.entry.nets.now site)
        → (values : List ℕ) → Done (Task.Own own) family.delays site.number values scratch.old out.old s.ms s.found.m scratch.new out.new result }
{
    match own {
        Own::Count => crate::asks::counted(call_count::here::count_in::<65535>(
            image, site, family, scratch,
        )),
        Own::Flatten => crate::asks::wrote(call_flatten::flatten_at(image, site, scratch, out)),
    }
}

// Called from two places the long way stays a function of its own, and other tasks do not pay for its stack.
pub(crate) fn work_at(
    task: Task,
    image: Image<'_>,
    site: Site,
    family: Family,
    values: &[u8],
    scratch: &mut [u32],
    out: &mut [u8],
) -> Sheet
    requires standing { Standing image.numbers.now image.starts.now image.nets.now site }
    requires image_len_bound { length image.numbers.now ≤ 65535 }
    ensures { (s : Standing image.entry.numbers.now image.entry.starts.now image.entry.nets.now site)
        → Done task family.delays site.number values.now scratch.old out.old s.ms s.found.m scratch.new out.new result }
{
    match task {
        Task::Evaluate => crate::asks::ran(call_evaluate::run_at(
            image, site, values, scratch, out,
        )),
        Task::Rows(rows) => crate::asks::ran(call_rows::run_at(
            image, site, rows, values, scratch, out,
        )),
        Task::Own(own) => {
            if 1024 < image.numbers.len() {
                return own_long(own, image, site, family, scratch, out);
            }
            if in_short(own, site) {
                return own_short(own, image, site, family, scratch, out);
            }
            own_long(own, image, site, family, scratch, out)
        }
    }
}
