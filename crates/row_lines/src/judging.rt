// The next line of a text: whether it is a row of a module.
ghost use Rattle.std.specs.Prelude.{◌≡◌, length};
ghost use Rattle.row_lines.specs.Lines.{feed_at, bare_length, judged, found_as, found_in};

// How a line is no row: the index of a byte that does not belong in it; or how many values it has, where the module has another count of inputs.
#[derive(Clone, Copy, PartialEq, Eq, Debug)]
pub enum Bad {
    Byte(usize),
    Values(usize),
}

// A line that is a row: its length without its line end and with it.
#[derive(Clone, Copy, PartialEq, Eq, Debug)]
pub struct Row {
    pub bare: usize,
    pub whole: usize,
}

// Where the first line feed stands; the text's length where there is none.
fn feed_at(text: &[u8]) -> usize
    ensures { result ≡ feed_at text.now }
{
    text.iter()
        .position(|byte| *byte == b'\n')
        .unwrap_or(text.len())
}

// How long a line is without a carriage return at its end.
fn bare_length(line: &[u8]) -> usize
    ensures { result ≡ bare_length line.now }
{
    match line.strip_suffix(b"\r") {
        Some(bare) => bare.len(),
        None => line.len(),
    }
}

// A line whose word and whole length are known: a row, or how it is bad.
fn judge(word: &[u8], whole: usize, inputs: usize) -> Result<Option<Row>, Bad>
    ensures { result ≡ found_as (judged inputs word.now) (length word.now) whole }
{
    let other = crate::words::first_other(word);
    if other != word.len() {
        return Err(Bad::Byte(other));
    }
    let values = crate::words::count_values(word);
    if values != inputs {
        return Err(Bad::Values(values));
    }
    Ok(Some(Row {
        bare: word.len(),
        whole,
    }))
}

// What stands next in a text: a row, or nothing where no line ends any more.
pub(crate) fn find_row(text: &[u8], inputs: usize) -> Result<Option<Row>, Bad>
    ensures { result ≡ found_in inputs text.now }
{
    let feed = feed_at(text);
    if feed == text.len() {
        return Ok(None);
    }
    let bare = bare_length(&text[..feed]);
    judge(&text[..bare], feed + 1, inputs)
}
