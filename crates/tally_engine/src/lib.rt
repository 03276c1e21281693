// The tally of a module, counted on the image of a checked file: how many gates of each kind it reaches.
#![tactic(auto)]

ghost use Rattle.std.specs.Prelude.{◌≡◌, ◌+◌, ◌<◌, ◌^◌, replicate, get_or};
ghost use Rattle.meaning.specs.Figures.{tally};
ghost use Rattle.laws.specs.Figures.Tally.{total};
ghost use Rattle.tally_engine.specs.Tallies.{one_of, Addable, Added, Countable};
ghost use Rattle.tally_engine.specs.Rows.{Tallying, Tallied};

use gates::Kind;

pub mod rows;

// A record of sixteen gate counts, one a kind.
#[derive(Clone, Copy)]
pub struct Tally {
    pub counts: [u32; 16],
}

impl Tally {
    // No gate.
    pub fn nothing() -> Tally
        ensures { result.counts ≡ replicate 16 0 }
    {
        Tally { counts: [0u32; 16] }
    }

    // One gate more of a kind. Each count is added to, so that no count is found by its place in memory and the record stays in registers.
    pub fn with_gate(mut self, kind: usize) -> Tally
        requires kind_bound { kind < 16 }
        requires addable { Addable self.counts (one_of kind) }
        ensures { Added self.counts (one_of kind) result.counts }
    {
        for i in 0..16 {
            self.counts[i] += if i == kind { 1 } else { 0 };
        }
        self
    }

    // The gates of another tally more.
    pub fn with_tally(mut self, other: Tally) -> Tally
        requires { Addable self.counts (λ kind. get_or other.counts kind 0) }
        ensures { Added self.counts (λ kind. get_or other.counts kind 0) result.counts }
    {
        for kind in 0..16 {
            self.counts[kind] += other.counts[kind];
        }
        self
    }
}

// The tally of the module at position k: a gate counts for itself, and a module adds its tally each time it is referred to. What is
// kept is looked up, so the work is bounded by the length of the file. No count of nets is read, so a caller need have no whole `Image`.
fn tally_once(
    image: &[u16],
    starts: &[usize],
    k: usize,
    rows: &mut [u32],
    filled: &mut [bool],
) -> Tally
    requires { Tallying image.now starts.now k rows.old filled.old }
    ensures { (s : Tallying image.now starts.now k rows.old filled.old)
        → Tallied s.countable.rs k result.counts rows.new filled.new }
{
    if crate::rows::is_filled(filled, k) {
        return crate::rows::row_at(rows, k);
    }
    let header = image::places::module_at(image, starts[k]);
    let mut at = header.to + 1;
    let mut tally = Tally::nothing();
    for _ in 0..header.count {
        let o = image::places::occurrence_at(image, at);
        at = o.to;
        match gates::kind_of(o.refers) {
            Kind::Gate(_, _) => {
                tally = tally.with_gate(o.refers as usize);
            }
            Kind::Module => {
                let j = o.refers as usize - 16;
                let inner = tally_once(image, starts, j, rows, filled);
                tally = tally.with_tally(inner);
            }
        }
    }
    crate::rows::fill_row(tally, k, rows, filled);
    tally
}

// The tally of the module at position k. A file has at most 128 modules, so each has its row.
pub fn tally_module(image: &[u16], starts: &[usize], k: usize) -> Tally
    requires { Countable image.now starts.now k }
    ensures { (s : Countable image.now starts.now k)
        → result.counts ≡ tally s.rs (16 + k) }
{
    let mut rows = [0u32; 2048];
    let mut filled = [false; 128];
    tally_once(image, starts, k, &mut rows, &mut filled)
}

// How many gates a tally counts.
pub fn gates_of(tally: Tally) -> u32
    requires { total tally.counts < 2 ^ 32 }
    ensures { result ≡ total tally.counts }
{
    let mut gates = 0;
    for kind in 0..16 {
        gates += tally.counts[kind];
    }
    gates
}
