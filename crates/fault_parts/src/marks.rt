// The table of marks, indexed by net: 1 for those that are known.
ghost use Rattle.std.specs.Prelude.{◌≡◌, List, ◌++◌, ℕ, ◌≤◌, length};
ghost use Rattle.fault_parts.specs.Fronts.{new_front, known_front};
ghost use Rattle.fault_parts.specs.Asked.{Marked};

// How many nets at the front of a list are new; these are marked.
pub fn learn(list: &[u16], marks: &mut [u8]) -> usize
    requires { 65536 ≤ length marks.old }
    ensures { (known : List ℕ) → Marked marks.old known → (result ≡ new_front list.now known)
        × (result ≡ length list.now → Marked marks.new (list.now ++ known)) }
{
    for i in 0..list.len() {
        let net = list[i] as usize;
        if marks[net] == 1 {
            return i;
        }
        marks[net] = 1;
    }
    list.len()
}

// How many are known.
pub fn count_known(list: &[u16], marks: &[u8]) -> usize
    requires { 65536 ≤ length marks.now }
    ensures { (known : List ℕ) → Marked marks.now known → result ≡ known_front list.now known }
{
    for i in 0..list.len() {
        if marks[list[i] as usize] != 1 {
            return i;
        }
    }
    list.len()
}

// All nets of a list become known.
pub fn mark_all(list: &[u16], marks: &mut [u8])
    requires { 65536 ≤ length marks.old }
    ensures { (known : List ℕ) → Marked marks.old known → Marked marks.new (list.now ++ known) }
{
    for net in list {
        marks[*net as usize] = 1;
    }
}
