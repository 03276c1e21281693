// The line of a text in which a place stands, so that a refusal can show it: how many lines end above, how many bytes stand left of the place,
// and where the line begins and ends. Which bytes end a line is said in specs/.
#![tactic(auto)]

ghost use Rattle.std.specs.Prelude.{◌≡◌, ◌+◌, ◌<◌, ◌≤◌, min, length, drop};
ghost use Rattle.text_lines.specs.Lines.{ends_line, bytes_left, rest_of_line, indent_of, excerpt_of, LineOf, Shows};

fn ends_line(text: &[u8], i: usize) -> bool
    requires { i < length text.now }
    ensures { result ≡ ends_line text.now i }
{
    if text[i] == b'\n' {
        return true;
    }
    if text[i] != b'\r' {
        return false;
    }
    let next = i + 1;
    if next == text.len() {
        return true;
    }
    text[next] != b'\n'
}

// Where the line ends that goes through a place.
fn line_end(text: &[u8], from: usize) -> usize
    requires { from ≤ length text.now }
    ensures { result ≡ from + rest_of_line (drop from text.now) }
{
    for i in from..text.len() {
        if text[i] == b'\n' {
            return i;
        }
        if text[i] == b'\r' {
            return i;
        }
    }
    text.len()
}

#[derive(Clone, Copy, PartialEq, Eq, Debug)]
pub struct Line {
    pub above: usize,
    pub left: usize,
    pub start: usize,
    pub end: usize,
}

fn nearer(end: usize, place: usize) -> usize
    ensures { result ≡ min end place }
{
    if place < end { place } else { end }
}

// The line of a place; that of the text's end where the place is behind it.
pub fn line_of(text: &[u8], place: usize) -> Line
    ensures { LineOf text.now place result }
{
    let stop = nearer(text.len(), place);
    let mut above = 0;
    let mut left = 0;
    for i in 0..stop {
        if ends_line(text, i) {
            above += 1;
            left = 0;
        } else {
            left += 1;
        }
    }
    let end = line_end(text, stop);
    Line {
        above,
        left,
        start: stop - left,
        end,
    }
}

// What is shown of a line: at most 72 bytes, and of those left of the place 40 where there are more than 60.
#[derive(Clone, Copy)]
struct Shown {
    from: usize,
    to: usize,
    indent: usize,
}

fn kept(left: usize) -> usize
    ensures { result ≡ indent_of left }
{
    if 60 < left { 40 } else { left }
}

fn choose(line: Line) -> Shown
    requires { line.start + line.left ≤ line.end }
    ensures { Shows line result }
{
    let indent = kept(line.left);
    let from = line.start + (line.left - indent);
    if 72 < line.end - from {
        return Shown {
            from,
            to: from + 72,
            indent,
        };
    }
    Shown {
        from,
        to: line.end,
        indent,
    }
}

// How many of the bytes that are shown stand left of the place.
pub fn indent(text: &[u8], place: usize) -> usize
    ensures { result ≡ indent_of (bytes_left text.now (min (length text.now) place)) }
{
    choose(line_of(text, place)).indent
}

// The bytes that are shown.
pub fn excerpt<'a>(text: &'a [u8], place: usize) -> &'a [u8]
    ensures { result.now ≡ excerpt_of text.now (min (length text.now) place) }
{
    let part = choose(line_of(text, place));
    let from = part.from;
    let to = part.to;
    &text[from..to]
}
