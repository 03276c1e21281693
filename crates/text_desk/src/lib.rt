// The desk in code: the numbers stand in a list, and three places say how far it goes and where the counts stand that grow.
#![tactic(auto)]

ghost use Rattle.std.specs.Prelude.{◌≡◌, ◌+◌, ◌≤◌, ◌<◌, length, get_or, set};
ghost use Rattle.text_desk.specs.Desk.{raised, opened, opened_over, with_name, with_net};
ghost use Rattle.text_desk.specs.Paper.{desk_of, Testable, Raisable, Opening, Opens, Naming, Netting, Puts};

// How many numbers there are, and where the count of a list of nets and of the list of occurrences stand.
#[derive(Clone, Copy)]
pub struct Marks {
    pub at: usize,
    pub list: usize,
    pub body: usize,
}

// Whether `(` is too much: over 128 modules (mode 2), over 4,096 occurrences (mode 9).
pub fn is_full(mode: usize, numbers: &[u16], marks: Marks) -> bool
    requires { Testable mode numbers.now marks }
    ensures { result ≡ opened_over mode (desk_of numbers.now marks) }
{
    if mode == 2 {
        return 128 <= numbers[0];
    }
    if mode == 9 {
        let body = marks.body;
        return 4096 <= numbers[body];
    }
    false
}

// A count goes up by one.
fn raise(numbers: &mut [u16], place: usize)
    requires { Raisable numbers.old place }
    ensures { numbers.new ≡ raised numbers.old place }
{
    numbers[place] += 1;
}

// `(`.
pub fn open(mode: usize, numbers: &mut [u16], marks: Marks) -> Marks
    requires { Opening mode numbers.old marks }
    ensures { Opens mode numbers.old marks numbers.new result }
{
    let at = marks.at;
    let body = marks.body;
    match mode {
        4 | 12 => marks,
        2 => {
            raise(numbers, 0);
            marks
        }
        9 => {
            raise(numbers, body);
            marks
        }
        8 => {
            numbers[at] = 0;
            Marks {
                at: at + 1,
                list: marks.list,
                body: at,
            }
        }
        _ => {
            numbers[at] = 0;
            Marks {
                at: at + 1,
                list: at,
                body,
            }
        }
    }
}

// The name of a module, and the count of the list that follows it.
pub fn put_name(number: u16, numbers: &mut [u16], marks: Marks) -> Marks
    requires { Naming numbers.old marks }
    ensures { Puts (with_name number) numbers.old marks numbers.new result }
{
    let at = marks.at;
    numbers[at] = number;
    numbers[at + 1] = 0;
    Marks {
        at: at + 2,
        list: at + 1,
        body: marks.body,
    }
}

// A net.
pub fn put_net(number: u16, numbers: &mut [u16], marks: Marks) -> Marks
    requires { Netting numbers.old marks }
    ensures { Puts (with_net number) numbers.old marks numbers.new result }
{
    let at = marks.at;
    let list = marks.list;
    raise(numbers, list);
    numbers[at] = number;
    Marks {
        at: at + 1,
        list,
        body: marks.body,
    }
}
