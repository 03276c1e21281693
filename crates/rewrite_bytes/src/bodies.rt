// The occurrences of a module: their nets marked as used, and then written, each withdrawn gate as three.
ghost use Rattle.std.specs.Prelude.{◌≡◌, Bool, ◌||◌, ℕ, ◌+◌, ◌<◌, length};
ghost use Rattle.meaning.specs.Boxlist.{member};
ghost use Rattle.meaning.specs.Withdrawn.{body_nets};
ghost use Rattle.bytes_out.specs.Filled.{Put};
ghost use Rattle.rewrite_bytes.specs.Used.{Stamped};
ghost use Rattle.rewrite_bytes.specs.Bodies.{gate_there, Markable, Roomy, body_of};

use crate::three::Gate;

// The nets of so many occurrences from a place on are used.
pub fn mark_body(numbers: &[u16], place: usize, count: usize, table: &mut [u8], stamp: u8)
    requires { Markable numbers.now place count (length table.old) }
    ensures { (s : Markable numbers.now place count (length table.old)) (used : ℕ → Bool) → Stamped table.old stamp used
        → Stamped table.new stamp (λ x. used x || member x (body_nets s.os)) }
{
    let mut at = place;
    for _ in 0..count {
        let o = image::places::occurrence_at(numbers, at);
        let drives = o.drives;
        let takes = o.from;
        let next = o.to;
        crate::used::mark(&numbers[at + 1..at + 1 + drives], table, stamp);
        crate::used::mark(&numbers[takes..next], table, stamp);
        at = next;
    }
}

// The gate of a number whose net stands behind a place and whose arguments stand at another.
fn gate_at(numbers: &[u16], at: usize, takes: usize, kind: u16) -> Gate
    requires { (at + 1 < length numbers.now) × (takes + 3 < length numbers.now) }
    ensures { result ≡ gate_there numbers.now at takes kind }
{
    Gate {
        kind,
        net: numbers[at + 1],
        a: numbers[takes],
        b: numbers[takes + 1],
        c: numbers[takes + 2],
        d: numbers[takes + 3],
    }
}

// So many occurrences from a place on, written from a place of `out` on.
pub fn put_body(
    numbers: &[u16],
    place: usize,
    count: usize,
    table: &[u8],
    stamp: u8,
    out: &mut [u8],
    to: usize,
) -> usize
    requires { Roomy numbers.now place count table.now stamp (length out.old) to }
    ensures { (s : Roomy numbers.now place count table.now stamp (length out.old) to)
        → Put (body_of s.w) out.old to out.new result }
{
    let mut at = place;
    let mut from = 0;
    let mut end = to;
    for _ in 0..count {
        let o = image::places::occurrence_at(numbers, at);
        let here = at;
        let takes = o.from;
        at = o.to;
        if rewrite_counts::fours::is_withdrawn(o.refers) {
            let first = crate::used::seek(table, stamp, from);
            let second = crate::used::seek(table, stamp, first + 1);
            let gate = gate_at(numbers, here, takes, o.refers);
            end = crate::three::put_three(gate, first as u16, second as u16, out, end);
            from = second + 1;
        } else {
            end = write_pieces::numbers::put_list(&numbers[here..at], out, end);
        }
    }
    end
}
