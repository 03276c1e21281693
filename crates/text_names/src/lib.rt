// The names of a text, numbered in order of first appearance below a root of their own: a tree in one list, four entries a node
// (specs/Tree.antt). A letter costs at most as many steps as there are letters, so there is no text that is bad for it.
#![tactic(auto)]

ghost use Rattle.std.specs.Prelude.{◌≡◌, ◌<◌};
ghost use Rattle.meaning.specs.ListForm.{capital};
ghost use Rattle.text_names.specs.Tree.{longer, word_at, Book, Sought, Reached};
ghost use Rattle.text_names.specs.Walking.{grown_by};
ghost use Rattle.text_names.specs.Needs.{Seekable, Steppable, Walkable, Walked, Numberable, Numbered};

// Either case alike.
pub fn capital(b: u8) -> u8
    ensures { result ≡ capital b }
{
    if b < 97 {
        return b;
    }
    if 122 < b {
        return b;
    }
    b - 32
}

fn wide(x: u32) -> usize
    ensures { result ≡ x }
{
    x as usize
}

fn letter(b: u8) -> u32
    ensures { result ≡ b }
{
    b as u32
}

// The child of a node that has a letter; 0 if there is none.
fn child(tree: &[u32], count: usize, n: usize, c: u8) -> usize
    requires { Seekable tree.now count n }
    ensures { (b : Book tree.now count) → Sought b.nodes (word_at b.nodes n) c result }
{
    let sought = letter(c);
    let mut u = wide(tree[4 * n]);
    while u != 0 {
        if tree[4 * u + 2] == sought {
            return u;
        }
        u = wide(tree[4 * u + 1]);
    }
    0
}

// The node one letter further, which is the next node if it is new.
fn step(tree: &mut [u32], count: usize, n: usize, c: u8) -> usize
    requires { Steppable tree.old count n }
    ensures { (b : Book tree.old count) → Reached tree.old b.nodes (longer (word_at b.nodes n) c) tree.new (grown_by count result) result }
{
    let u = child(tree, count, n, c);
    if u != 0 {
        return u;
    }
    let before = tree[4 * n];
    tree[4 * count + 2] = letter(c);
    tree[4 * count + 1] = before;
    tree[4 * n] = count as u32;
    count
}

// A node, and how many there are.
#[derive(Clone, Copy)]
pub struct Reach {
    pub node: usize,
    pub count: usize,
}

// How many there are after one was given: one more, if it is the next.
pub fn grown(count: usize, node: usize) -> usize
    requires { count < 1048576 }
    ensures { result ≡ grown_by count node }
{
    if node == count { count + 1 } else { count }
}

// Along the letters of a name.
fn walk(name: &[u8], tree: &mut [u32], root: usize, count: usize) -> Reach
    requires { Walkable name.now tree.old root count }
    ensures { Walked name.now tree.old root count tree.new result.count result.node }
{
    let mut node = root;
    let mut all = count;
    for letter in name {
        node = step(tree, all, node, capital(*letter));
        all = grown(all, node);
    }
    Reach { node, count: all }
}

// What a name is given, and how many nodes there are.
#[derive(Clone, Copy)]
pub struct Given {
    pub number: usize,
    pub count: usize,
}

// The number of a name below a root under which so many are known. A new one gets the next; 16,384 says that there is none left.
pub fn number(name: &[u8], tree: &mut [u32], root: usize, known: usize, count: usize) -> Given
    requires { Numberable name.now tree.old root known count }
    ensures { Numbered name.now tree.old root known count tree.new result.count result.number }
{
    let reach = walk(name, tree, root, count);
    let node = reach.node;
    let given = wide(tree[4 * node + 3]);
    if given != 0 {
        return Given {
            number: given - 1,
            count: reach.count,
        };
    }
    if 16384 <= known {
        return Given {
            number: 16384,
            count: reach.count,
        };
    }
    tree[4 * node + 3] = (known + 1) as u32;
    Given {
        number: known,
        count: reach.count,
    }
}
