// A refusal in words.
use refusals::Refusal;
use std::fmt;

// Where a refusal is and which rule it is. It is printed so; the refusal itself is printed as its number and its place.
#[derive(Clone, Copy, PartialEq, Eq, Debug)]
pub struct Explained(pub Refusal);

impl fmt::Display for Explained {
    // Refusals 2 to 5 name a byte, 6 to 17 and 28 a module by its position, 20 a value, 29 a gate's name, 31 a base.
    fn fmt<W: fmt::Write>(&self, f: &mut fmt::Formatter<W>) -> fmt::Result {
        let Refusal { number, place } = self.0;
        match number {
            2..=5 => write!(f, "byte {place}: ")?,
            6..=17 | 28 => write!(f, "module at position {place}: ")?,
            20 => write!(f, "value {place}: ")?,
            29 => write!(f, "gate name {place}: ")?,
            31 => write!(f, "base {place}: ")?,
            _ => {}
        }
        f.write_str(rule(number))
    }
}

// Which rule it is: of the bytes, of what a module begins with, of its occurrences, of all of it, of a call, of what is made, or of filing.
pub fn rule(number: u16) -> &'static str {
    match number {
        1 => "the file is longer than 65,535 bytes",
        2 => "the file ends where a byte is due",
        3 => "the second byte of a number is 0, or 128 or more",
        4 => "a count is over its ceiling",
        5 => "bytes follow the last module",
        6 => "its number is under 16",
        7 => "a later module has the same number",
        8 => "an input is listed twice",
        9 => "an output is listed twice",
        10 => "a net is both input and output",
        11 => "an occurrence drives a net twice, or an input, or a net already driven",
        12 => "an argument is neither an input nor driven earlier",
        13 => "an occurrence refers to no gate and to no later module",
        14 => "the count of arguments or driven nets does not match what is referred to",
        15 => "an output is not driven",
        16 => "it has more than 4,096 nets",
        17 => "its expanded size is over 65,535",
        18 => "no module of the file has that number",
        19 => "the count of values is not the count of inputs",
        20 => "it is above 3",
        21 => "the scratch has fewer entries than the module's room",
        22 => "the output buffer is shorter than the answer",
        23 => "the width is not from 1 to 64",
        24 => "flattened, the module has more than 4,096 nets",
        25 => "no list of modules goes on so",
        26 => "an atom, a list or a count of names is over its ceiling",
        28 => "it uses a four-input gate, which the maker no longer builds",
        29 => {
            "not 128 bytes of names, or it is not 1 to 8 capitals or digits and then spaces, or M and digits, or used before"
        }
        30 => "the word length is not from 1 to 16",
        31 => "it is none of A, C, G and T",
        32 => "the sequence is longer than 65,535 bases",
        33 => "the text is longer than 262,144 bytes",
        _ => "",
    }
}
