// Which modules use a withdrawn gate, and which ceilings the rewritten file breaks: each of the four gates adds two occurrences and two nets
// to its module and two visits to each module that reaches it.
ghost use Rattle.std.specs.Prelude.{◌≡◌};
ghost use Rattle.meaning.specs.Verdict.{sizes_verdict};
ghost use Rattle.meaning.specs.Withdrawn.{withdrawn_verdict, rewrite_file, occurrences_ok, nets_verdict};
ghost use Rattle.rewrite_counts.specs.Ceilings.{verdict_by, OwnTable, Peopled, Netted, Sized};

// 28: the first module that uses one.
pub fn first_user(own: &[u32], modules: usize) -> Option<usize>
    requires { OwnTable own.now modules }
    ensures { (s : OwnTable own.now modules) → withdrawn_verdict 0 s.ms ≡ verdict_by 28 result }
{
    for k in 0..modules {
        if 0 < own[k] {
            return Some(k);
        }
    }
    None
}

// 4: whether each module of the new file has at most 4,096 occurrences.
pub fn few_occurrences(image: &[u16], starts: &[usize], own: &[u32], modules: usize) -> bool
    requires { Peopled image.now starts.now own.now modules }
    ensures { (s : Peopled image.now starts.now own.now modules)
        → occurrences_ok (rewrite_file s.table.ms) ≡ result }
{
    for k in 0..modules {
        let header = image::places::module_at(image, starts[k]);
        if 4096 < header.count + 2 * own[k] as usize {
            return false;
        }
    }
    true
}

// 16: the first module of the new file that has more than 4,096 nets.
pub fn first_crowded(nets: &[usize], own: &[u32], modules: usize) -> Option<usize>
    requires { Netted nets.now own.now modules }
    ensures { (s : Netted nets.now own.now modules)
        → nets_verdict 0 (rewrite_file s.table.ms) ≡ verdict_by 16 result }
{
    for k in 0..modules {
        if 4096 < nets[k] + 2 * own[k] as usize {
            return Some(k);
        }
    }
    None
}

// 17: the last module of the new file whose expanded size is over 65,535.
pub fn last_large(sizes: &[u32], reached: &[u32], modules: usize) -> Option<usize>
    requires { Sized sizes.now reached.now modules }
    ensures { (s : Sized sizes.now reached.now modules)
        → sizes_verdict 0 (rewrite_file s.ms) ≡ verdict_by 17 result }
{
    for k in (0..modules).rev() {
        if 65535 < sizes[k] + 2 * reached[k] {
            return Some(k);
        }
    }
    None
}
