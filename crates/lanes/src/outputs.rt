// Rows of values given back: eight rows from a byte of each rail for each net.
ghost use Rattle.std.specs.Prelude.{◌≡◌, map, ◌/◌, ◌%◌, ◌^◌, ◌<◌, length, get_or};
ghost use Rattle.meaning.specs.Values.{code};
ghost use Rattle.lanes.specs.Giving.{Given};

// The byte from a place on of a word of an entry.
pub fn byte_of(entry: [u64; 8], word: usize, at: u64) -> u8
    requires { (word < 8) × (at < 64) }
    ensures { result ≡ get_or entry word 0 / 2 ^ at % 256 }
{
    ((entry[word] >> at) % 256) as u8
}

// The values of one of the eight rows.
pub fn give_row(row: u8, low: &[u8], high: &[u8], out: &mut [u8])
    requires { (row < 8) × Given row low.now high.now (length out.old) }
    ensures { (g : Given row low.now high.now (length out.old)) → out.new ≡ map code g.values }
{
    for j in 0..out.len() {
        out[j] = (high[j] >> row) % 2 * 2 - (low[j] >> row) % 2;
    }
}
