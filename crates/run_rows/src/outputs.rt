// The outputs of all rows of a block, row by row.
ghost use Rattle.std.specs.Prelude.{◌≡◌, [], ◌+◌, ◌-◌, length};
ghost use Rattle.image.specs.Laid.{laid};
ghost use Rattle.image.specs.Slots.{values_at};
ghost use Rattle.run_rows.specs.Giving.{given, Group, Fetched, Fetchable, Shown, Giveable};

// Up to eight rows that stand in bytes, one behind the other.
fn give_group(count: usize, outputs: usize, low: &[u8], high: &[u8], at: usize, out: &mut [u8])
    requires { Group count outputs at low.now high.now (length out.old) }
    ensures { (g : Group count outputs at low.now high.now (length out.old))
        → out.new ≡ laid out.old at (given g.values count) }
{
    let mut place = at;
    for r in 0..count {
        let end = place + outputs;
        lanes::outputs::give_row(r as u8, low, high, &mut out[place..end]);
        place = end;
    }
}

// The bytes that hold eight rows of each output, of both rails.
fn fetch(
    image: &[u16],
    from: usize,
    to: usize,
    word: usize,
    shift: u64,
    entries: &[[u64; 8]],
    low: &mut [u8],
    high: &mut [u8],
)
    requires { Fetchable image.now from to word shift entries.now low.old high.old }
    ensures { Fetched word shift (values_at [] image.now from to 0 entries.now) low.old low.new (to - from)
        × Fetched (word + 4) shift (values_at [] image.now from to 0 entries.now) high.old high.new (to - from) }
{
    let count = to - from;
    for j in 0..count {
        let slot = image::entry(image, from + j);
        low[j] = lanes::outputs::byte_of(entries[slot], word, shift);
        high[j] = lanes::outputs::byte_of(entries[slot], word + 4, shift);
    }
}

// Up to eight rows from one on whose number is a multiple of eight.
fn give_some(
    image: &[u16],
    from: usize,
    to: usize,
    entries: &[[u64; 8]],
    done: usize,
    some: usize,
    at: usize,
    out: &mut [u8],
)
    requires { Shown image.now from to entries.now done some at (length out.old) }
    ensures { (g : Shown image.now from to entries.now done some at (length out.old))
        → out.new ≡ laid out.old at (given g.values some) }
{
    let mut low = [0u8; 192];
    let mut high = [0u8; 192];
    let shift = (done % 64) as u64;
    fetch(
        image,
        from,
        to,
        done / 64,
        shift,
        entries,
        &mut low,
        &mut high,
    );
    give_group(some, to - from, &low, &high, at, out);
}

// All rows of a block.
pub fn give_block(
    image: &[u16],
    from: usize,
    to: usize,
    entries: &[[u64; 8]],
    count: usize,
    at: usize,
    out: &mut [u8],
)
    requires { Giveable image.now from to entries.now count at (length out.old) }
    ensures { (g : Giveable image.now from to entries.now count at (length out.old))
        → out.new ≡ laid out.old at (given g.values count) }
{
    let outputs = to - from;
    for group in 0..count.div_ceil(8) {
        let done = group * 8;
        let some = (count - done).min(8);
        give_some(
            image,
            from,
            to,
            entries,
            done,
            some,
            at + done * outputs,
            out,
        );
    }
}
