// The four gates that are withdrawn, counted in each module and in all that it reaches.
ghost use Rattle.std.specs.Prelude.{◌≡◌, ◌+◌, length};
ghost use Rattle.meaning.specs.Withdrawn.{withdrawn};
ghost use Rattle.laws.specs.Withdrawn.Suits.{fours};
ghost use Rattle.laws.specs.Withdrawn.Counts.{fours_reached};
ghost use Rattle.rewrite_counts.specs.Fours.{Reaching, Countable, Counted};

// Whether a number is that of B-NAND4, B-OR4, B-AND4 or B-NOR4.
pub fn is_withdrawn(number: u16) -> bool
    ensures { result ≡ withdrawn number }
{
    if number == 4 {
        return true;
    }
    if number == 7 {
        return true;
    }
    if number == 12 {
        return true;
    }
    number == 15
}

// Of a module: how many of its own occurrences refer to one of them, and how many it reaches, counted once for each time.
#[derive(Clone, Copy)]
pub struct Fours {
    pub own: u32,
    pub reached: u32,
}

// The module at position k, where the table has what each later module reaches.
fn fours_of(image: &[u16], starts: &[usize], k: usize, reached: &[u32]) -> Fours
    requires { Reaching image.now starts.now k reached.now }
    ensures { (s : Reaching image.now starts.now k reached.now)
        → (result.own ≡ fours s.scene.m.occurrences) × (result.reached ≡ fours_reached s.rs (16 + k)) }
{
    let header = image::places::module_at(image, starts[k]);
    let mut at = header.to + 1;
    let mut own = 0u32;
    let mut sum = 0u32;
    for _ in 0..header.count {
        let o = image::places::occurrence_at(image, at);
        at = o.to;
        if is_withdrawn(o.refers) {
            own += 1;
            sum += 1;
        } else if 16 <= o.refers {
            sum += reached[o.refers as usize - 16];
        }
    }
    Fours { own, reached: sum }
}

// All modules, from the last to the first.
pub fn count_fours(
    image: &[u16],
    starts: &[usize],
    modules: usize,
    own: &mut [u32],
    reached: &mut [u32],
)
    requires { Countable image.now starts.now modules (length own.old) (length reached.old) }
    ensures { (s : Countable image.now starts.now modules (length own.old) (length reached.old))
        → Counted s.rs 0 own.new reached.new }
{
    for k in (0..modules).rev() {
        let found = fours_of(image, starts, k, reached);
        own[k] = found.own;
        reached[k] = found.reached;
    }
}
