// Lines of a text to rows of values.
ghost use Rattle.std.specs.Prelude.{◌≡◌};
ghost use Rattle.row_lines.specs.Blocks.{Takes, block_of};

use crate::judging::{Bad, Row, find_row};

// A block of rows: how many they are, how many values they have, where the text goes on, and how the line there is bad, if it is.
#[derive(Clone, Copy, PartialEq, Eq, Debug)]
pub struct Block {
    pub rows: usize,
    pub given: usize,
    pub next: usize,
    pub bad: Option<Bad>,
}

impl Block {
    fn of(rows: usize, given: usize, next: usize, bad: Option<Bad>) -> Self
        ensures { result ≡ block_of rows given next bad }
    {
        Self {
            rows,
            given,
            next,
            bad,
        }
    }
}

// Takes rows of a text, until so many are taken, another would not fit, no line ends any more, or a line is no row.
pub fn take_rows(text: &[u8], most: usize, inputs: usize, values: &mut [u8]) -> Block
    ensures { Takes most inputs text.now values.old values.new result }
{
    let mut given = 0;
    let mut next = 0;
    for rows in 0..most {
        if values.len() - given < inputs {
            return Block::of(rows, given, next, None);
        }
        match find_row(&text[next..], inputs) {
            Ok(Some(Row { bare, whole })) => {
                let end = next + bare;
                given = crate::words::put_at(&text[next..end], values, given);
                next += whole;
            }
            Ok(None) => return Block::of(rows, given, next, None),
            Err(bad) => return Block::of(rows, given, next, Some(bad)),
        }
    }
    Block::of(most, given, next, None)
}
