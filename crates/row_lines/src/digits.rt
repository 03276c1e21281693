// Rows of outputs to lines of digits.
ghost use Rattle.std.specs.Prelude.{◌+◌, ◌<◌, length};
ghost use Rattle.list_text.specs.Pieces.{PutDown};
ghost use Rattle.row_lines.specs.Digits.{line_text, lines_text};

// Puts a row's line from a place on, and answers the place behind it.
fn put_line(row: &[u8], out: &mut [u8], from: usize) -> usize
    requires { from + length row.now < length out.old }
    ensures { PutDown (line_text row.now) out.old from out.new result }
{
    let mut at = from;
    for value in row {
        out[at] = b'0' + value % 10;
        at += 1;
    }
    out[at] = b'\n';
    at + 1
}

// Puts the lines of rows that stand end to end, as far as there are values and there is room, and answers how long they are.
pub fn put_lines(values: &[u8], rows: usize, outputs: usize, out: &mut [u8]) -> usize
    ensures { PutDown (lines_text rows outputs (length out.old) values.now) out.old 0 out.new result }
{
    let mut at = 0;
    let mut from = 0;
    for _ in 0..rows {
        if values.len() - from < outputs {
            return at;
        }
        if out.len() - at <= outputs {
            return at;
        }
        let to = from + outputs;
        at = put_line(&values[from..to], out, at);
        from = to;
    }
    at
}
