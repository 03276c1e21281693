// The counter's outputs read as shelves, and the counts of these.
ghost use Rattle.std.specs.Prelude.{◌≡◌, ◌+◌, ◌≤◌, ◌<◌, length};
ghost use Rattle.laws.specs.Filing.Tables.{add_each};
ghost use Rattle.filing.specs.Reading.{six_bits, shelves_in, Addable};

fn wide(byte: u8) -> usize
    ensures { (result ≡ byte) × (result < 256) }
{
    byte as usize
}

// The number that six outputs write, low first.
pub fn shelf_at(outputs: &[u8], at: usize) -> usize
    requires { at + 6 ≤ length outputs.now }
    ensures { result ≡ six_bits outputs.now at }
{
    let low = wide(outputs[at]) + 2 * wide(outputs[at + 1]) + 4 * wide(outputs[at + 2]);
    let high = wide(outputs[at + 3]) + 2 * wide(outputs[at + 4]) + 4 * wide(outputs[at + 5]);
    low + 8 * high
}

// One more in the table for each row of outputs.
pub fn add_shelves(rows: usize, outputs: &[u8], table: &mut [u32])
    requires { Addable rows outputs.now table.old }
    ensures { table.new ≡ add_each (shelves_in rows outputs.now) table.old }
{
    for i in 0..rows {
        let shelf = shelf_at(outputs, i * 6);
        table[shelf] = table[shelf] + 1;
    }
}
