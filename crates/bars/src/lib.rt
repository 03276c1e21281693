// A table of counts as lines: number, count, and a bar of at most 50 marks.
#![tactic(auto)]

use std::io;

// A line for each entry, then the total.
pub fn print(rt: &impl Print, table: &[u64], total: u64) -> io::Result<()> {
    print_entries(rt, table, marks(50, largest(table)))?;
    println!(rt; "words {total}")
}

fn print_entries(rt: &impl Print, table: &[u64], unit: u64) -> io::Result<()> {
    for (number, count) in table.iter().enumerate() {
        print_entry(rt, number, *count, unit)?;
    }
    Ok(())
}

fn print_entry(rt: &impl Print, number: usize, count: u64, unit: u64) -> io::Result<()> {
    print!(rt; "{number} {count}")?;
    if 0 < count {
        print_bar(rt, marks(unit, count))?;
    }
    println!(rt; "")
}

fn print_bar(rt: &impl Print, marks: u64) -> io::Result<()> {
    print!(rt; " ")?;
    for _ in 0..marks {
        print!(rt; "#")?;
    }
    Ok(())
}

fn largest(table: &[u64]) -> u64 {
    table.iter().copied().max().unwrap_or(0)
}

// How many marks a count has: one for each unit that it begins.
fn marks(unit: u64, count: u64) -> u64 {
    if unit == 0 {
        return 0;
    }
    count.div_ceil(unit)
}
