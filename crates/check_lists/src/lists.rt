// A list of nets with its count in front: where it ends, and how slots take the places of its nets.
ghost use Rattle.std.specs.Prelude.{◌≡◌, List, ℕ, ◌+◌, ◌≤◌, length};
ghost use Rattle.meaning.specs.Layout.{list_numbers};
ghost use Rattle.image.specs.Stands.{Stands};
ghost use Rattle.check_lists.specs.Lists.{Listed, ListReady, ListLearnt, ListWritten};

// The place behind the list whose count stands at a place.
pub fn list_end(numbers: &[u16], at: usize) -> usize
    requires { Listed numbers.now at }
    ensures { (list : List ℕ) → Stands numbers.now at (list_numbers list) → result ≡ at + 1 + length list }
{
    at + 1 + image::entry(numbers, at)
}

// Each net takes the next slot from `first` on, and the slot its place. Answers how many at the front are new, none where the list repeats
// one: a caller goes on behind the list from where the loop ended.
pub fn learn_list(numbers: &mut [u16], at: usize, slots: &mut [u32], base: u32, first: u32) -> usize
    requires list_ready { ListReady numbers.old slots.old base at first }
    requires first_le_at { first ≤ at }
    ensures { ListLearnt numbers.old slots.old base at first slots.new numbers.new result }
{
    let a = at + 1;
    let e = list_end(numbers, at);
    if nets::repeats::has_repeat(&numbers[a..e]) {
        return 0;
    }
    nets::table::learn_new(&mut numbers[a..e], slots, base, first)
}

// Each net's slot takes its place. Answers how many at the front are known with slots below the limit, likewise.
pub fn write_list(numbers: &mut [u16], at: usize, slots: &[u32], base: u32, limit: u32) -> usize
    requires { ListReady numbers.old slots.now base at limit }
    ensures { ListWritten numbers.old slots.now base at limit numbers.new result }
{
    let a = at + 1;
    let e = list_end(numbers, at);
    nets::table::resolve_known(&mut numbers[a..e], slots, base, limit)
}
