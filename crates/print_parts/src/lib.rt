// One module's list out of the text of a whole file, as printing writes it: between the outer brackets, each module but the first behind a line end and
// a space. No other line begins with one space and a bracket.
#![tactic(auto)]

ghost use Rattle.std.specs.Prelude.{◌≤◌, length};

// Where the first module's list ends: in front of the next one's line end, or with the text.
fn list_end(modules: &[u8]) -> usize
    ensures { result ≤ length modules.now }
{
    modules
        .windows(3)
        .position(|next| next.starts_with(b"\n ("))
        .unwrap_or(modules.len())
}

// One digit more. The last four bits of a digit's byte are its value.
fn further(number: u32, digit: u8) -> u32
    requires { number ≤ 65535 }
    ensures { result ≤ 655605 }
{
    10 * number + u32::from(digit % 16)
}

// `(M18 ..`: the number in its name.
fn number_of(list: &[u8]) -> u32 {
    let mut number: u32 = 0;
    for byte in list.iter().skip(2) {
        if !byte.is_ascii_digit() || 65535 < number {
            return number;
        }
        number = further(number, *byte);
    }
    number
}

// The list of a module by its number, if the text has such a module: between the first byte and the last two, whatever these are. Nothing at
// all is no module's list.
pub fn module_list(text: &[u8], number: u16) -> Option<&[u8]> {
    let mut modules = text.get(1..text.len().checked_sub(2)?)?;
    while !modules.is_empty() {
        let (list, behind) = modules.split_at(list_end(modules));
        if number_of(list) == u32::from(number) {
            return (!list.is_empty()).then_some(list);
        }
        modules = behind.get(2..)?;
    }
    None
}
