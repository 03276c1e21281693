// Which nets a module uses, in a table by number: a used one has the module's stamp, any other a lower one. So one table serves module after
// module, with a higher stamp each time and nothing to clear; and the unused numbers come from one pass over it.
ghost use Rattle.std.specs.Prelude.{Bool, ◌||◌, ℕ, ◌+◌, length};
ghost use Rattle.meaning.specs.Boxlist.{member};
ghost use Rattle.rewrite_bytes.specs.Used.{Indexed, Stamped, Seekable, Found};

// The nets of a list are used.
pub fn mark(list: &[u16], table: &mut [u8], stamp: u8)
    requires { Indexed list.now (length table.old) }
    ensures { (used : ℕ → Bool) → Stamped table.old stamp used
        → Stamped table.new stamp (λ x. used x || member x list.now) }
{
    for i in 0..list.len() {
        table[list[i] as usize] = stamp;
    }
}

// The lowest unused number from one on. There is one, so the search has no end to test: `position` would answer an Option that is never None.
pub fn seek(table: &[u8], stamp: u8, from: usize) -> usize
    requires { Seekable table.now stamp from }
    ensures { (s : Seekable table.now stamp from) → Found s result }
{
    let mut i = from;
    while table[i] == stamp {
        i += 1;
    }
    i
}
