// The parts of a file: lists of nets, occurrences, modules.
ghost use Rattle.meaning.specs.Reading.{read_number, read_many, read_nets, read_occurrence, read_module};
ghost use Rattle.read_parts.specs.Steps.{read_body, Stands, Takes};

use crate::way::{Spot, keep_count, keep_number, last_kept};
use refusals::Refusal;

// So many numbers.
fn keep_numbers(spot: Spot, count: u16, bytes: &[u8], numbers: &mut [u16]) -> Result<Spot, Refusal>
    requires { Stands bytes.now spot numbers.old }
    ensures { Takes (read_many read_number count) bytes.now spot numbers.old numbers.new result }
{
    let mut spot = spot;
    for _ in 0..count {
        spot = keep_number(spot, bytes, numbers)?;
    }
    Ok(spot)
}

// A list of nets: its count and as many nets.
fn keep_nets(spot: Spot, bytes: &[u8], numbers: &mut [u16]) -> Result<Spot, Refusal>
    requires { Stands bytes.now spot numbers.old }
    ensures { Takes read_nets bytes.now spot numbers.old numbers.new result }
{
    let next = keep_count(spot, 192, bytes, numbers)?;
    let count = last_kept(next, numbers);
    keep_numbers(next, count, bytes, numbers)
}

// An occurrence: the nets that it drives, the number that it refers to, its argument nets.
fn keep_occurrence(spot: Spot, bytes: &[u8], numbers: &mut [u16]) -> Result<Spot, Refusal>
    requires { Stands bytes.now spot numbers.old }
    ensures { Takes read_occurrence bytes.now spot numbers.old numbers.new result }
{
    let driven = keep_nets(spot, bytes, numbers)?;
    let refers = keep_number(driven, bytes, numbers)?;
    keep_nets(refers, bytes, numbers)
}

// So many occurrences.
fn keep_occurrences(
    spot: Spot,
    count: u16,
    bytes: &[u8],
    numbers: &mut [u16],
) -> Result<Spot, Refusal>
    requires { Stands bytes.now spot numbers.old }
    ensures { Takes (read_many read_occurrence count) bytes.now spot numbers.old numbers.new result }
{
    let mut spot = spot;
    for _ in 0..count {
        spot = keep_occurrence(spot, bytes, numbers)?;
    }
    Ok(spot)
}

// A list of occurrences: its count and as many occurrences.
fn keep_body(spot: Spot, bytes: &[u8], numbers: &mut [u16]) -> Result<Spot, Refusal>
    requires { Stands bytes.now spot numbers.old }
    ensures { Takes read_body bytes.now spot numbers.old numbers.new result }
{
    let next = keep_count(spot, 4096, bytes, numbers)?;
    let count = last_kept(next, numbers);
    keep_occurrences(next, count, bytes, numbers)
}

// A module: its number, its inputs, its outputs, its occurrences.
pub fn keep_module(spot: Spot, bytes: &[u8], numbers: &mut [u16]) -> Result<Spot, Refusal>
    requires { Stands bytes.now spot numbers.old }
    ensures { Takes read_module bytes.now spot numbers.old numbers.new result }
{
    let number = keep_number(spot, bytes, numbers)?;
    let inputs = keep_nets(number, bytes, numbers)?;
    let outputs = keep_nets(inputs, bytes, numbers)?;
    keep_body(outputs, bytes, numbers)
}
