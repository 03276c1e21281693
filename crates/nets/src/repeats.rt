// Whether a list of nets has one twice. All pairs count, and the search stops at the first pair found.
ghost use Rattle.std.specs.Prelude.{◌≡◌, true, false};
ghost use Rattle.meaning.specs.Boxlist.{duplicates};

// Each entry is compared with all later ones.
pub fn repeats(list: &[u16]) -> bool
    ensures { result ≡ duplicates list.now }
{
    let mut met = false;
    'search: for i in 0..list.len() {
        for j in i + 1..list.len() {
            if list[i] == list[j] {
                met = true;
                break 'search;
            }
        }
    }
    met
}

// Whether each entry is above the one before it. Such a list has no pair, and lists as they are written mostly are such; of any other
// this says nothing.
pub fn ascends(list: &[u16]) -> bool
    ensures { result ≡ true → duplicates list.now ≡ false }
{
    for i in 1..list.len() {
        if list[i] <= list[i - 1] {
            return false;
        }
    }
    true
}

// Pairs are sought where the entries do not ascend.
pub fn has_repeat(list: &[u16]) -> bool
    ensures { result ≡ duplicates list.now }
{
    if ascends(list) {
        return false;
    }
    repeats(list)
}
