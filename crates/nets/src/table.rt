// The table of slots, indexed by net number. A net that it knows has `base` plus its slot there, any other less than `base`: so one
// table serves module after module, with a higher base each time and nothing to clear.
ghost use Rattle.std.specs.Prelude.{◌≡◌, ℕ, ◌+◌, ◌^◌, ◌<◌, false, not, List, [], ◌++◌, length};
ghost use Rattle.meaning.specs.Boxlist.{duplicates, disjoint};
ghost use Rattle.nets.specs.Slots.{Knows, Below};
ghost use Rattle.nets.specs.Tables.{Learnable, Learnt, Resolvable, Resolved};

// Whether the table knows some net of the list.
pub fn any_known(list: &[u16], table: &[u32], base: u32) -> bool
    requires { Below (length table.now) list.now }
    ensures { (nets : List ℕ) → Knows table.now base nets → result ≡ not (disjoint list.now nets) }
{
    for net in list {
        if base <= table[*net as usize] {
            return true;
        }
    }
    false
}

// The first nets of a module, no two of them the same, take the slots from 0 on.
pub fn learn(list: &[u16], table: &mut [u32], base: u32)
    requires below { Below (length table.old) list.now }
    requires list_bound { base + length list.now < 2 ^ 32 }
    ensures { Knows table.old base [] → duplicates list.now ≡ false → Knows table.new base list.now }
{
    for i in 0..list.len() {
        table[list[i] as usize] = base + i as u32;
    }
}

// How many nets at the front of the list, no two of which are the same, the table does not know: all of them, or those in front of the
// first that it knows. One pass asks, learns and writes: each net takes the next slot from `first` on, and its slot takes its place in the list. The
// answer is a count and not a yes or no, so that the place behind the list comes from the loop, whose end the processor foresees, and
// the next list need not wait for a count to be loaded: so the counter is kept by hand, since a `for` has none behind its end.
pub fn learn_new(list: &mut [u16], table: &mut [u32], base: u32, first: u32) -> usize
    requires { Learnable list.old table.old base first }
    ensures learnt { (nets : List ℕ) → Knows table.old base nets → first ≡ length nets → Learnt nets list.old base list.new table.new result }
    ensures low { Below (base + 65536) table.old → Below (base + 65536) table.new }
{
    let mut i = 0;
    while i < list.len() {
        let net = list[i] as usize;
        if base <= table[net] {
            return i;
        }
        let slot = first + i as u32;
        table[net] = base + slot;
        list[i] = slot as u16;
        i += 1;
    }
    i
}

// How many nets at the front of the list the table knows with a slot below the limit: all of them, or those in front of the first that it
// does not. The same pass puts the slots in the nets' places. An entry below the base wraps round to a number above every limit, so one
// test asks for both bounds. The answer is a count for the sake of the place behind the list, as in `learn_new`.
pub fn resolve_known(list: &mut [u16], table: &[u32], base: u32, limit: u32) -> usize
    requires { Resolvable list.old table.now base limit }
    ensures { (nets more : List ℕ) → Knows table.now base (nets ++ more) → limit ≡ length nets → Resolved nets more list.old list.new result }
{
    let mut i = 0;
    while i < list.len() {
        let above = std::num::wrapping_sub_u32(table[list[i] as usize], base);
        if limit <= above {
            return i;
        }
        list[i] = above as u16;
        i += 1;
    }
    i
}
