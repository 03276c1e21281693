// Rows of values packed: eight rows into a byte for each net, 64 into a word, 256 into an entry.
ghost use Rattle.std.specs.Prelude.{◌≡◌, ◌≤◌, ◌<◌, length, drop};
ghost use Rattle.meaning.specs.Values.{value};
ghost use Rattle.meaning.specs.Rows.{rows_of};
ghost use Rattle.lanes.specs.Lanes.{surely, maybe};
ghost use Rattle.lanes.specs.Words.{digit};
ghost use Rattle.lanes.specs.Rows.{Light, Added, Packed};
ghost use Rattle.lanes.specs.Groups.{Group};
ghost use Rattle.lanes.specs.Feeding.{Hungry, Fed};
ghost use Rattle.lanes.specs.Wording.{Whole};
ghost use Rattle.lanes.specs.Storing.{Lists, Stored, entry_of};
ghost use Rattle.lanes.specs.Blocks.{word_rows, Part, Block, Taken};

fn sure(v: u8) -> u8
    ensures { result ≡ digit (surely (value v)) }
{
    if v == 1 { 1 } else { 0 }
}

fn may(v: u8) -> u8
    ensures { result ≡ digit (maybe (value v)) }
{
    if v == 0 { 0 } else { 1 }
}

// One row in front of those that are packed.
fn take_row(row: &[u8], low: &mut [u8], high: &mut [u8])
    requires { Light (length row.now) low.old × Light (length row.now) high.old }
    ensures { Added surely row.now low.old low.new (length row.now)
        × Added maybe row.now high.old high.new (length row.now) }
{
    for i in 0..row.len() {
        let v = row[i];
        low[i] = low[i] * 2 + sure(v);
        high[i] = high[i] * 2 + may(v);
    }
}

// Up to eight rows that stand end to end from a place on, packed from the last to the first.
fn take_rows(
    values: &[u8],
    inputs: usize,
    from: usize,
    count: usize,
    low: &mut [u8],
    high: &mut [u8],
)
    requires { Group values.now inputs from count low.old × Group values.now inputs from count high.old }
    ensures { Packed surely (rows_of count inputs (drop from values.now)) inputs low.new
        × Packed maybe (rows_of count inputs (drop from values.now)) inputs high.new }
{
    for row in (0..count).rev() {
        let start = from + row * inputs;
        take_row(&values[start..start + inputs], low, high);
    }
}

fn wide(b: u8) -> u64
    ensures { (result ≡ b) × (result < 256) }
{
    b as u64
}

// Eight rows more in each word: their bytes are shifted in.
fn feed(n: usize, bytes: &[u8], words: &mut [u64])
    requires { Hungry n bytes.now words.old }
    ensures { Fed bytes.now words.old words.new n }
{
    for i in 0..n {
        words[i] = words[i] * 256 + wide(bytes[i]);
    }
}

// Up to 64 rows that stand end to end from a place on, as words.
fn take_word(
    values: &[u8],
    inputs: usize,
    from: usize,
    count: usize,
    low: &mut [u64],
    high: &mut [u64],
)
    requires { Whole values.now inputs from count low.old × Whole values.now inputs from count high.old }
    ensures { Packed surely (rows_of count inputs (drop from values.now)) inputs low.new
        × Packed maybe (rows_of count inputs (drop from values.now)) inputs high.new }
{
    for group in (0..count.div_ceil(8)).rev() {
        let start = group * 8;
        let some = (count - start).min(8);
        let mut sure = [0u8; 192];
        let mut may = [0u8; 192];
        take_rows(
            values,
            inputs,
            from + start * inputs,
            some,
            &mut sure,
            &mut may,
        );
        feed(inputs, &sure, low);
        feed(inputs, &may, high);
    }
}

// The words of each net side by side, as its entry.
fn store(
    n: usize,
    a: &[u64],
    b: &[u64],
    c: &[u64],
    d: &[u64],
    s: &[u64],
    t: &[u64],
    u: &[u64],
    v: &[u64],
    entries: &mut [[u64; 8]],
)
    requires { Lists n a.now b.now c.now d.now × Lists n s.now t.now u.now v.now × (n ≤ length entries.old) }
    ensures { Stored (entry_of a.now b.now c.now d.now s.now t.now u.now v.now)
        entries.old entries.new n }
{
    for j in 0..n {
        entries[j] = [a[j], b[j], c[j], d[j], s[j], t[j], u[j], v[j]];
    }
}

// Of up to 256 rows that stand end to end from a place on, those of one word, 64 to a word.
fn take_part(
    values: &[u8],
    inputs: usize,
    from: usize,
    count: usize,
    word: usize,
    low: &mut [u64],
    high: &mut [u64],
)
    requires { Part values.now inputs from count word low.old × Part values.now inputs from count word high.old }
    ensures { Packed surely (word_rows values.now inputs from count word) inputs low.new
        × Packed maybe (word_rows values.now inputs from count word) inputs high.new }
{
    let start = count.min(word * 64);
    let end = count.min(word * 64 + 64);
    take_word(
        values,
        inputs,
        from + start * inputs,
        end - start,
        low,
        high,
    );
}

// Up to 256 rows that stand end to end from a place on, as the first entries.
pub fn take_block(values: &[u8], inputs: usize, from: usize, count: usize, entries: &mut [[u64; 8]])
    requires { Block values.now inputs from count entries.old }
    ensures { Taken values.now inputs from count entries.old entries.new }
{
    let mut a = [0u64; 192];
    let mut b = [0u64; 192];
    let mut c = [0u64; 192];
    let mut d = [0u64; 192];
    let mut s = [0u64; 192];
    let mut t = [0u64; 192];
    let mut u = [0u64; 192];
    let mut v = [0u64; 192];
    take_part(values, inputs, from, count, 0, &mut a, &mut s);
    take_part(values, inputs, from, count, 1, &mut b, &mut t);
    take_part(values, inputs, from, count, 2, &mut c, &mut u);
    take_part(values, inputs, from, count, 3, &mut d, &mut v);
    store(inputs, &a, &b, &c, &d, &s, &t, &u, &v, entries);
}
