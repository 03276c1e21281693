// The occurrences of module 41. P of a tree is on a net p and its G on the net p + width.
ghost use Rattle.std.specs.Prelude.{◌+◌, ◌≤◌};
ghost use Rattle.bytes_out.specs.Filled.{Put};
ghost use Rattle.write_pieces.specs.Rooms.{Room};
ghost use Rattle.write_ahead.specs.Carries.{one_bytes, two_bytes, join_bytes};

use write_pieces::gates::Gate;
use write_pieces::numbers::put_list;

// The carry behind a tree, by module 42.
pub fn over_one(width: u16, net: u16, carry: u16, p: u16, bytes: &mut [u8], at: usize) -> usize
    requires { (width ≤ 64) × (net ≤ 2000) × (carry ≤ 2000) × (p ≤ 1000) × Room (one_bytes width net carry p) bytes.old at }
    ensures { Put (one_bytes width net carry p) bytes.old at bytes.new result }
{
    put_list(&[1, net, 42, 3, carry, p, p + width], bytes, at)
}

// The carry behind two trees, by module 43.
pub fn over_two(
    width: u16,
    net: u16,
    carry: u16,
    low: u16,
    high: u16,
    bytes: &mut [u8],
    at: usize,
) -> usize
    requires { (width ≤ 64) × (net ≤ 2000) × (carry ≤ 2000) × (low ≤ 1000) × (high ≤ 1000) × Room (two_bytes width net carry low high) bytes.old at }
    ensures { Put (two_bytes width net carry low high) bytes.old at bytes.new result }
{
    put_list(
        &[1, net, 43, 5, carry, low, low + width, high, high + width],
        bytes,
        at,
    )
}

// P and G of a node, from those of its three trees: all three pass a carry on, or it is made and carried on.
pub fn join(width: u16, p: u16, x: u16, y: u16, z: u16, bytes: &mut [u8], at: usize) -> usize
    requires { (width ≤ 64) × (p ≤ 1000) × (x ≤ 1000) × (y ≤ 1000) × (z ≤ 1000) × Room (join_bytes width p x y z) bytes.old at }
    ensures { Put (join_bytes width p x y z) bytes.old at bytes.new result }
{
    let makes = put_list(&[1, p, Gate::And3 as u16, 3, x, y, z], bytes, at);
    over_two(width, p + width, x + width, y, z, bytes, makes)
}
