// The gates' names stand below root 1 before any other, so their numbers are theirs.
ghost use Rattle.std.specs.Prelude.{◌≡◌};
ghost use Rattle.text_reader.specs.Gating.{gate_bytes, Blank, Gated};

// The names, one behind the other.
fn enter_all(names: &[u8], tree: &mut [u32]) -> usize
    requires names_value { names.now ≡ gate_bytes }
    requires blank { Blank tree.old }
    ensures { Gated tree.old tree.new result }
{
    let starts: [usize; 17] = [
        0, 5, 10, 16, 23, 30, 34, 39, 44, 49, 54, 59, 65, 71, 76, 82, 88,
    ];
    let mut count = 3;
    for g in 0..16 {
        let from = starts[g];
        let to = starts[g + 1];
        let given = text_names::number(&names[from..to], tree, 1, g, count);
        count = given.count;
    }
    count
}

// Enters them into a tree that is all 0: nodes 0 to 2 are roots, the first of nothing, then of modules and of nets. Answers how many nodes
// there are.
pub fn enter(tree: &mut [u32]) -> usize
    requires { Blank tree.old }
    ensures { Gated tree.old tree.new result }
{
    enter_all(
        b"B-BUFB-NOTB-NANDB-NAND3B-NAND4B-ORB-OR3B-OR4B-EQVB-XORB-ANDB-AND3B-AND4B-NORB-NOR3B-NOR4",
        tree,
    )
}
