// The lines of an accepted file that stands ready in lists.
ghost use Rattle.std.specs.Prelude.{◌≤◌, ◌≡◌, length};
ghost use Rattle.meaning.specs.Calls.{Decision};
ghost use Rattle.meaning.specs.Family.{Summary, summary_on};
ghost use Rattle.meaning.specs.Listing.{line, lines, listing_scratch};
ghost use Rattle.open_finding.specs.Standing.{Standing};
ghost use Rattle.call_count.specs.Answers.{counted_of};
ghost use Rattle.list_text.specs.Pieces.{PutDown};
ghost use Rattle.list_text.specs.Lines.{longest_line};
ghost use Rattle.list_file.specs.Sheet.{Listable};

use call_count::counts::Figures;
use families::Family;
use image::Image;
use list_text::Counts;
use open_finding::Site;
use refusals::Refusal;

// Writes the line of a module at the front of `out`, from what the count answered, and answers the line's length.
fn put_counted(
    position: usize,
    number: u16,
    counted: Result<Figures, Refusal>,
    out: &mut [u8],
) -> usize
    requires { longest_line ≤ length out.old }
    ensures { (decision : Decision Summary) → counted ≡ counted_of decision → PutDown (line position number decision) out.old 0 out.new result }
{
    match counted {
        Ok(figures) => {
            let counts = Counts {
                inputs: figures.inputs as u64,
                outputs: figures.outputs as u64,
                gates: figures.gates as u64,
                size: figures.size as u64,
                room: figures.room as u64,
                delay: figures.delay as u64,
                load: figures.load as u64,
                family: figures.family as u64,
            };
            list_text::put_figures(position as u64, number as u64, counts, out)
        }
        Err(refusal) => list_text::put_module_refusal(
            position as u64,
            number as u64,
            refusal.number as u64,
            out,
        ),
    }
}

// Counts a module that stands in the image, and writes its line at the front of `out`.
fn put_line(
    image: Image<'_>,
    site: Site,
    family: Family,
    loads: &mut [u32],
    scratch: &mut [u32],
    out: &mut [u8],
) -> usize
    requires standing { Standing image.numbers.now image.starts.now image.nets.now site }
    requires image_in_bounds { length image.numbers.now ≤ length loads.old }
    requires scratch_len { length scratch.old ≡ listing_scratch }
    requires longest_line_in_bounds { longest_line ≤ length out.old }
    ensures { (s : Standing image.entry.numbers.now image.entry.starts.now image.entry.nets.now site)
        → PutDown (line site.position site.number (summary_on family.delays site.number listing_scratch s.ms s.found.m)) out.old 0 out.new result }
{
    let counted = call_count::figuring::count_at(image, site, family, scratch, loads);
    put_counted(site.position, site.number, counted, out)
}

// Writes the lines of all modules at the front of `out`, and answers their length.
pub(crate) fn put_lines(
    image: Image<'_>,
    names: &[u16],
    sizes: &[u32],
    rooms: &[u32],
    modules: usize,
    family: Family,
    loads: &mut [u32],
    scratch: &mut [u32],
    out: &mut [u8],
) -> usize
    requires { Listable image.numbers.now image.starts.now names.now image.nets.now sizes.now rooms.now modules loads.old scratch.old out.old }
    ensures { (s : Listable image.entry.numbers.now image.entry.starts.now names.now image.entry.nets.now sizes.now rooms.now modules loads.old scratch.old out.old)
        → PutDown (lines s.file family.delays 0 s.opened.ms) out.old 0 out.new result }
{
    let mut at = 0;
    for position in 0..modules {
        let site = open_finding::site_at(position, names[position], sizes, rooms);
        let end = at + 210;
        at += put_line(image, site, family, loads, scratch, &mut out[at..end]);
    }
    at
}
