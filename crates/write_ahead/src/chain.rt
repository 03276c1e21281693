// The chain of module 41: the carry in goes over the word from the low end, over one tree or over two at a step.
ghost use Rattle.write_ahead.specs.Laid.{Chainable, ChainLaid};

use crate::carries::{over_one, over_two};
use crate::trees::ahead;
use write_trees::{Parts, Tree, leaves, split};

// Steps that are laid: the place behind their bytes, and over how many trees they go.
#[derive(Clone, Copy, PartialEq, Eq, Debug)]
pub struct Steps {
    pub at: usize,
    pub trees: u16,
}

// The steps over the lowest `left` bits of a tree that has more, its bits starting at a bit.
pub fn chain(width: u16, tree: Tree, left: u16, start: u16, bytes: &mut [u8], at: usize) -> Steps
    requires { Chainable width tree left start bytes.old at }
    ensures { ChainLaid width tree left start bytes.old at bytes.new result }
{
    match split(tree) {
        Parts::Leaf => Steps { at, trees: 0 },
        Parts::Node { x, y, z } => {
            let low = leaves(x);
            if left < low {
                return chain(width, x, left, start, bytes, at);
            }
            let both = low + leaves(y);
            let x = ahead(width, x, start, bytes, at);
            let behind = over_one(width, x.end, start, x.p, bytes, x.at);
            if left < both {
                let rest = chain(width, y, left - low, x.end, bytes, behind);
                return Steps {
                    at: rest.at,
                    trees: rest.trees + 1,
                };
            }
            let y = ahead(width, y, x.end, bytes, behind);
            let behind = over_two(width, y.end, start, x.p, y.p, bytes, y.at);
            let rest = chain(width, z, left - both, y.end, bytes, behind);
            Steps {
                at: rest.at,
                trees: rest.trees + 2,
            }
        }
    }
}
