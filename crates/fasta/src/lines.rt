// What a byte of a file is, by the line that it stands in.
ghost use Rattle.std.specs.Prelude.{◌≡◌};
ghost use Rattle.fasta.specs.Steps.{kind_in, kind_of};

// A line: it begins here, or it holds bases, or it is a header.
#[derive(Clone, Copy, PartialEq, Eq, Debug)]
pub enum Line {
    Fresh,
    Bases,
    Header,
}

// A byte: it ends its line, or begins a header, or is a part of one, or stands for a base.
#[derive(Clone, Copy, PartialEq, Eq, Debug)]
pub enum Kind {
    End,
    Begin,
    Skip,
    Base,
}

// What a byte is that ends no line.
fn kind_in(line: Line, byte: u8) -> Kind
    ensures { result ≡ kind_in line byte }
{
    match line {
        Line::Fresh => {
            if byte == b'>' {
                Kind::Begin
            } else {
                Kind::Base
            }
        }
        Line::Bases => Kind::Base,
        Line::Header => Kind::Skip,
    }
}

pub(crate) fn kind_of(line: Line, byte: u8) -> Kind
    ensures { result ≡ kind_of line byte }
{
    match byte {
        b'\n' => Kind::End,
        b'\r' => Kind::End,
        _ => kind_in(line, byte),
    }
}
