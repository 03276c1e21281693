// The occurrences of module 41 inside a tree.
ghost use Rattle.write_ahead.specs.Laid.{Layable, TreeLaid};

use crate::carries::{join, over_one, over_two};
use write_trees::{Parts, Tree, split};

// A tree that is laid: the place behind its bytes, the bit behind its bits, and the net of its P.
#[derive(Clone, Copy, PartialEq, Eq, Debug)]
pub struct Laid {
    pub at: usize,
    pub end: u16,
    pub p: u16,
}

// The carries inside the tree whose bits start at a bit, and its P and G.
pub fn ahead(width: u16, tree: Tree, start: u16, bytes: &mut [u8], at: usize) -> Laid
    requires { Layable width tree start bytes.old at }
    ensures { TreeLaid width tree start bytes.old at bytes.new result }
{
    match split(tree) {
        Parts::Leaf => Laid {
            at,
            end: start + 1,
            p: width + 1 + start,
        },
        Parts::Node { x, y, z } => {
            let x = ahead(width, x, start, bytes, at);
            let y_at = over_one(width, x.end, start, x.p, bytes, x.at);
            let y = ahead(width, y, x.end, bytes, y_at);
            let z_at = over_two(width, y.end, start, x.p, y.p, bytes, y.at);
            let z = ahead(width, z, y.end, bytes, z_at);
            let p = 3 * width + 1 + y.end;
            Laid {
                at: join(width, p, x.p, y.p, z.p, bytes, z.at),
                end: z.end,
                p,
            }
        }
    }
}
