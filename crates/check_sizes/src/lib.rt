// Expanded size and room of a module, and rule 17. Both are sums over its references: a gate adds itself, a module its figures, which come
// from tables by its position.
#![tactic(auto)]

ghost use Rattle.std.specs.Prelude.{◌≡◌, ◌+◌, ◌<◌, ◌^◌, length, get_or};
ghost use Rattle.check_sizes.specs.Walks.{no_sums, plus_gate, plus_module};
ghost use Rattle.check_sizes.specs.Kept.{Keepable, Kept};

// The figures of modules by their positions, as they are looked up: expanded sizes and rooms.
#[derive(Clone, Copy)]
pub struct Figures<'a> {
    pub sizes: &'a [u32],
    pub rooms: &'a [u32],
}

// Over some occurrences of a module: its expanded size, and the largest room among the modules that they refer to.
#[derive(Clone, Copy, PartialEq, Eq, Debug)]
pub struct Sums {
    pub size: u32,
    pub room: u32,
}

impl Sums {
    // Over no occurrence.
    pub fn nothing() -> Self
        ensures { result ≡ no_sums }
    {
        Self { size: 0, room: 0 }
    }

    // With a gate more.
    pub fn with_gate(self) -> Self
        requires { self.size + 1 < 2 ^ 32 }
        ensures { result ≡ plus_gate self }
    {
        Self {
            size: self.size + 1,
            room: self.room,
        }
    }

    // With the module at position j more.
    pub fn with_module(self, j: usize, figures: Figures) -> Self
        requires j_in_bounds { (j < length figures.sizes.now) × (j < length figures.rooms.now) }
        requires j_bound { self.size + (1 + get_or figures.sizes.now j 0) < 2 ^ 32 }
        ensures { result ≡ plus_module figures.entry.sizes.now figures.entry.rooms.now self j }
    {
        Self {
            size: self.size + (1 + figures.sizes[j]),
            room: image::buffers::larger(self.room, figures.rooms[j]),
        }
    }
}

// The module at position k, with so many nets of its own: its figures join the tables', unless its size is over the limit. Answers whether
// they do.
pub fn keep(own: usize, sums: Sums, k: usize, sizes: &mut [u32], rooms: &mut [u32]) -> bool
    requires { Keepable own sums k sizes.old rooms.old }
    ensures { Kept own sums k sizes.old rooms.old sizes.new rooms.new result }
{
    if 65535 < sums.size {
        return false;
    }
    sizes[k] = sums.size;
    rooms[k] = own as u32 + sums.room;
    true
}
