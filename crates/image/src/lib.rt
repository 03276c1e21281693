// Reading the image of a checked file by place, and the lists that walks over it work in.
#![tactic(auto)]

ghost use Rattle.std.specs.Prelude.{◌≡◌, ◌<◌, length, get_or};

pub mod buffers;
pub mod places;

// The image of a file that has passed its check: its numbers, and for each module, by its position, where it begins among them and how
// many nets it has.
#[derive(Clone, Copy)]
pub struct Image<'a> {
    pub numbers: &'a [u16],
    pub starts: &'a [usize],
    pub nets: &'a [usize],
}

// The number at a place, as an index.
pub fn entry(numbers: &[u16], i: usize) -> usize
    requires { i < length numbers.now }
    ensures { result ≡ get_or numbers.now i 0 }
{
    numbers[i] as usize
}
