// The buffer that a text is read into.
ghost use Rattle.std.specs.Prelude.{◌+◌, ◌≡◌, length};
ghost use Rattle.image.specs.Laid.{laid};
ghost use Rattle.list_text.specs.Pieces.{PutDown};
ghost use Rattle.row_lines.specs.Spaces.{last_end, moved};

// Ends the last line of a text that fills a buffer so far, where it does not end and there is room. Answers how far the text fills it then.
pub fn end_text(text: &mut [u8], filled: usize) -> usize
    ensures { (result ≡ filled + length (last_end filled text.old)) × (text.new ≡ laid text.old filled (last_end filled text.old)) }
{
    if filled == 0 {
        return filled;
    }
    if text.len() <= filled {
        return filled;
    }
    let last = filled - 1;
    if text[last] == b'\n' {
        return filled;
    }
    text[filled] = b'\n';
    filled + 1
}

// Moves what stands from a place up to another to the front, and answers how much that is.
pub fn carry(text: &mut [u8], from: usize, to: usize) -> usize
    ensures { PutDown (moved from to text.old) text.old 0 text.new result }
{
    if to < from {
        return 0;
    }
    if text.len() < to {
        return 0;
    }
    let long = to - from;
    for i in 0..long {
        text[i] = text[from + i];
    }
    long
}
