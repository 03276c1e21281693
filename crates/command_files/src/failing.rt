// Why a command was not carried out, and that in words.
use command_words::refusing::Explained;
use refusals::Refusal;
use std::rt::Files;
use std::{fmt, io};

// How a command ends.
pub type Outcome<'a> = Result<(), Failure<'a>>;

// What could not be read, written or made sense of; what is refused; or an answer that could not be printed.
#[derive(Debug, Drop)]
pub enum Failure<'a> {
    NoCommand,
    Unread(&'a [u8]),
    // One that may be a text: then it is said why.
    UnreadFile(&'a [u8]),
    Unwritten(&'a [u8]),
    NotANumber(&'a [u8]),
    NotValues(&'a [u8]),
    NotADelay(&'a [u8]),
    NotAFamily(&'a [u8]),
    NoModuleNamed(&'a [u8]),
    BothFrom(&'a [u8]),
    Refused { about: About, refusal: Refusal },
    // A join's. Where 13 is met a designer is told of the surprise that may be behind it.
    NotJoined { about: About, refusal: Refusal },
    Unprinted(io::Error),
}

// What a refusal is about.
#[derive(Clone, Copy, PartialEq, Eq, Debug)]
pub enum About {
    Asked,
    Rewritten,
    Joined,
    Group,
    House,
    Record(u64),
}

impl fmt::Display for About {
    fn fmt<W: fmt::Write>(&self, f: &mut fmt::Formatter<W>) -> fmt::Result {
        match *self {
            About::Asked => Ok(()),
            About::Rewritten => f.write_str("in the rewritten file: "),
            About::Joined => f.write_str("in the joined file: "),
            About::Group => f.write_str("in the group's file: "),
            About::House => f.write_str("in the house's file: "),
            About::Record(record) => write!(f, "record {record}: "),
        }
    }
}

impl<'a> From<Refusal> for Failure<'a> {
    fn from(refusal: Refusal) -> Self {
        Failure::Refused {
            about: About::Asked,
            refusal,
        }
    }
}

impl<'a> From<io::Error> for Failure<'a> {
    fn from(error: io::Error) -> Self {
        Failure::Unprinted(error)
    }
}

// A line that begins with failed; or a line with the refusal's number and place, and lines that say them in words.
pub fn tell(rt: &(impl Files + Input + Print), failure: Failure) -> io::Result<()> {
    match failure {
        Failure::NoCommand => {
            println!(rt; "failed: no such command, or not its words; see gimlet help")
        }
        Failure::Unread(path) => fail(rt, "cannot read ", path),
        Failure::UnreadFile(path) => crate::texts::cannot_read(rt, path),
        Failure::Unwritten(path) => fail(rt, "cannot write ", path),
        Failure::NotANumber(word) => fail(rt, "not a number from 0 to 65535: ", word),
        Failure::NotValues(word) => fail(rt, "not a word of 0, 1, 2 and 3, or x and z: ", word),
        Failure::NotADelay(word) => fail(rt, "not a delay from 0 to 255: ", word),
        Failure::NotAFamily(path) => fail(rt, "not a family of sixteen bytes: ", path),
        Failure::NoModuleNamed(word) => fail(rt, "no module of the text is named ", word),
        Failure::BothFrom(path) => fail(rt, "FILE and ROWS cannot both be ", path),
        Failure::Refused { about, refusal } => refuse(rt, about, refusal),
        Failure::NotJoined { about, refusal } => refuse_joined(rt, about, refusal),
        Failure::Unprinted(error) => Err(error),
    }
}

// Why it could not be carried out, and on what.
pub(crate) fn fail(rt: &impl Print, why: &str, what: &[u8]) -> io::Result<()> {
    print!(rt; "failed: {why}")?;
    rt.write_all(what)?;
    println!(rt)
}

fn refuse(rt: &impl Print, about: About, refusal: Refusal) -> io::Result<()> {
    let Refusal { number, place } = refusal;
    let explained = Explained(refusal);
    println!(rt; "refused {number} {place}")?;
    println!(rt; "{about}{explained}")
}

fn refuse_joined(rt: &impl Print, about: About, refusal: Refusal) -> io::Result<()> {
    refuse(rt, about, refusal)?;
    if refusal.number == 13 {
        println!(rt;
            "a module of the house finds a number that the group's file has too in front of itself, not behind"
        )?;
    }
    Ok(())
}
