// The trees of bits that a look-ahead goes over (docs/ADDER.md, 'Which trees'). A tree is named by what it grows from and never stored:
// its parts are named the same way.
#![tactic(auto)]

ghost use Rattle.std.specs.Prelude.{◌+◌, ◌≤◌, ◌≡◌};
ghost use Rattle.meaning.specs.FastAdder.{leaves as leaves_of, height as heightOf};
ghost use Rattle.write_trees.specs.Trees.{tree_of, Sound, Parted};

// The largest tree whose G is there at time `late` and in which a carry passes at most `height` nodes; or what a carry goes over from a step
// of the chain on.
#[derive(Clone, Copy, PartialEq, Eq, Debug)]
pub enum Tree {
    Grown { late: u8, height: u8 },
    Spine { step: u8, height: u8 },
}

// A single bit, or the three trees of a node, the lowest bits in x.
#[derive(Clone, Copy, PartialEq, Eq, Debug)]
pub enum Parts {
    Leaf,
    Node { x: Tree, y: Tree, z: Tree },
}

// What a tree is made of.
pub fn split(tree: Tree) -> Parts
    requires { Sound tree }
    ensures { Parted tree result }
{
    match tree {
        Tree::Grown { late, height } => {
            if late < 3 {
                return Parts::Leaf;
            }
            if height == 0 {
                return Parts::Leaf;
            }
            Parts::Node {
                x: Tree::Grown {
                    late: late - 2,
                    height,
                },
                y: Tree::Grown {
                    late: late - 2,
                    height: height - 1,
                },
                z: Tree::Grown {
                    late: late - 1,
                    height: height - 1,
                },
            }
        }
        Tree::Spine { step, height } => {
            if height == 0 {
                return Parts::Leaf;
            }
            Parts::Node {
                x: Tree::Grown {
                    late: 2 * step + 1,
                    height,
                },
                y: Tree::Grown {
                    late: 2 * step + 2,
                    height: height - 1,
                },
                z: Tree::Spine {
                    step: step + 1,
                    height: height - 1,
                },
            }
        }
    }
}

// How many bits a tree has.
pub fn leaves(tree: Tree) -> u16
    requires { Sound tree × (leaves_of (tree_of tree) ≤ 71) }
    ensures { result ≡ leaves_of (tree_of tree) }
{
    match split(tree) {
        Parts::Leaf => 1,
        Parts::Node { x, y, z } => leaves(x) + leaves(y) + leaves(z),
    }
}

// A spine of this height has more bits than any width.
const TALLEST: u8 = 5;

// The least height at which the spine has more bits than the width.
pub fn height(width: u16) -> u8
    requires { width ≤ 64 }
    ensures { (result ≡ heightOf width) × (result ≤ 5) }
{
    for height in 0..TALLEST {
        if leaves(Tree::Spine { step: 0, height }) > width {
            return height;
        }
    }
    TALLEST
}
