// The listing's text: numbers in decimal, and the lines of specs/Listing.antt in `meaning`.
#![tactic(auto)]

ghost use Rattle.std.specs.Prelude.{ℕ, ◌+◌, ◌*◌, ◌≤◌, ◌<◌, List, [], ◌∷◌, length};
ghost use Rattle.meaning.specs.Calls.{refusal, answer};
ghost use Rattle.meaning.specs.Listing.{line_feed, spaced, line, listing_text};
ghost use Rattle.list_text.specs.Digits.{Spellable, Spelt};
ghost use Rattle.list_text.specs.Pieces.{PutDown};
ghost use Rattle.list_text.specs.Rows.{behind};
ghost use Rattle.list_text.specs.Lines.{longest_line, figures_of};

// Writes a number in decimal from a place on, and answers the place behind it.
pub fn put_number(n: u64, out: &mut [u8], at: usize) -> usize
    requires { Spellable n out.old at }
    ensures { Spelt n out.old at out.new result }
{
    if n < 10 {
        out[at] = (48 + n % 10) as u8;
        return at + 1;
    }
    let next = put_number(n / 10, out, at);
    out[next] = (48 + n % 10) as u8;
    next + 1
}

// Writes numbers with a space in front of each, and answers the place behind them.
fn put_more(numbers: &[u64], out: &mut [u8], from: usize) -> usize
    requires { from + 21 * length numbers.now ≤ length out.old }
    ensures { PutDown (behind numbers.now) out.old from out.new result }
{
    let mut at = from;
    for number in numbers {
        out[at] = b' ';
        at = put_number(*number, out, at + 1);
    }
    at
}

// Writes numbers with a space in front of each but the first, and answers the place behind them.
pub fn put_numbers(first: u64, rest: &[u64], out: &mut [u8], from: usize) -> usize
    requires { from + 20 + 21 * length rest.now ≤ length out.old }
    ensures { PutDown (spaced first rest.now) out.old from out.new result }
{
    let at = put_number(first, out, from);
    put_more(rest, out, at)
}

// Writes bytes as they are, and answers the place behind them.
pub fn put_bytes(bytes: &[u8], out: &mut [u8], at: usize) -> usize
    requires { at + length bytes.now ≤ length out.old }
    ensures { PutDown bytes.now out.old at out.new result }
{
    let end = at + bytes.len();
    out[at..end].copy_from_slice(bytes);
    end
}

// Writes a line feed, and answers the place behind it.
fn end_line(out: &mut [u8], at: usize) -> usize
    requires { at < length out.old }
    ensures { PutDown (line_feed ∷ []) out.old at out.new result }
{
    out[at] = b'\n';
    at + 1
}

// What a line says of a module after its position and number.
#[derive(Clone, Copy, PartialEq, Eq, Debug)]
pub struct Counts {
    pub inputs: u64,
    pub outputs: u64,
    pub gates: u64,
    pub size: u64,
    pub room: u64,
    pub delay: u64,
    pub load: u64,
    pub family: u64,
}

// Writes a module's line at the front of `out`, and answers its length. The line says nothing of the tally.
pub fn put_figures(position: u64, number: u64, counts: Counts, out: &mut [u8]) -> usize
    requires { longest_line ≤ length out.old }
    ensures { (tally : List ℕ) → PutDown (line position number (answer (figures_of counts tally))) out.old 0 out.new result }
{
    let rest = [
        number,
        counts.inputs,
        counts.outputs,
        counts.gates,
        counts.size,
        counts.room,
        counts.delay,
        counts.load,
        counts.family,
    ];
    let at = put_numbers(position, &rest, out, 0);
    end_line(out, at)
}

// Writes the line of a module that is refused at the front of `out`, and answers its length. The line says nothing of the place.
pub fn put_module_refusal(position: u64, number: u64, refused: u64, out: &mut [u8]) -> usize
    requires { longest_line ≤ length out.old }
    ensures { (place : ℕ) → PutDown (line position number (refusal refused place)) out.old 0 out.new result }
{
    let rest = [number];
    let at = put_numbers(position, &rest, out, 0);
    let at = put_bytes(b" refused ", out, at);
    let at = put_number(refused, out, at);
    end_line(out, at)
}

// Writes the line of a file that is refused at the front of `out`, and answers its length.
pub fn put_file_refusal(number: u64, place: u64, out: &mut [u8]) -> usize
    requires { longest_line ≤ length out.old }
    ensures { PutDown (listing_text (refusal number place)) out.old 0 out.new result }
{
    let at = put_bytes(b"refused ", out, 0);
    let rest = [place];
    let at = put_numbers(number, &rest, out, at);
    end_line(out, at)
}
