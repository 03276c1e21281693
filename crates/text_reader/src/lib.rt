// A text in the published list form, read to the numbers of its file: one pass, part by part.
#![tactic(auto)]

mod gates; // gates.rt: the gates' names, known from the first
mod turns; // turns.rt: one part

ghost use Rattle.text_reader.specs.Reading.{Readable, Reads};

use crate::turns::State;
use refusals::Refusal;

// How many numbers the text comes to; or 25 or 26 and the place. The tree is all 0, and both lists are long enough for the text.
pub fn read(text: &[u8], numbers: &mut [u16], tree: &mut [u32]) -> Result<usize, Refusal>
    requires { Readable text.now numbers.old tree.old }
    ensures { Reads text.now numbers.new result }
{
    let count = gates::enter(tree);
    let mut state = State::first(count);
    let mut i = 0;
    // A part may be a whole atom, so the place does not count up by one.
    while i < text.len() {
        let turn = turns::take(text, i, state, numbers, tree)?;
        i = turn.next;
        state = turn.state;
    }
    if state.mode < 17 {
        return Err(Refusal::at(25, i));
    }
    Ok(state.marks.at)
}
