// A text in the published list form becomes a file: 33, then 25 or 26 where reading says so, then 1, 6 to 17 and 22. All is put together in
// lists of the call's own, so that a refusal changes nothing that was lent.
#![tactic(auto)]

ghost use Rattle.std.specs.Prelude.{◌≤◌, ◌<◌, length};
ghost use Rattle.meaning.specs.ListCall.{list_reading};
ghost use Rattle.answers.specs.Answers.{Answers};
ghost use Rattle.text_reader.specs.Reading.{Reads};
ghost use Rattle.text_file.specs.Filing.{after_reading};
ghost use Rattle.call_text.specs.Rooms.{InTree, Long, InLists};

use refusals::Refusal;
use text_file::answer;
use text_reader::read;

// Reading in a tree of so many entries.
fn read_in<const TREE: usize>(text: &[u8], numbers: &mut [u16]) -> Result<usize, Refusal>
    requires { InTree text.now numbers.old TREE }
    ensures { Reads text.now numbers.new result }
{
    let mut tree = [0u32; TREE];
    read(text, numbers, &mut tree)
}

// In a tree that is long enough for every text.
pub fn read_long(text: &[u8], numbers: &mut [u16]) -> Result<usize, Refusal>
    requires { Long text.now numbers.old }
    ensures { Reads text.now numbers.new result }
{
    read_in::<1049088>(text, numbers)
}

// In lists of so many entries.
fn file_in<const TREE: usize, const NUMBERS: usize, const BYTES: usize>(
    text: &[u8],
    out: &mut [u8],
) -> Result<usize, Refusal>
    requires { InLists text.now TREE NUMBERS BYTES }
    ensures { Answers (after_reading text.now (length out.old)) out.old out.new result }
{
    let mut numbers = [0u16; NUMBERS];
    let read = read_in::<TREE>(text, &mut numbers);
    let mut bytes = [0u8; BYTES];
    answer(text, read, &numbers, &mut bytes, out)
}

// The next size.
fn larger(size: usize) -> usize
    requires { size < 262144 }
    ensures { (size < result) × (result ≤ 262144) }
{
    if size < 32768 { 32768 } else { 262144 }
}

// In the lists for texts of so many bytes, or in longer ones: short texts should not pay for clearing long lists. The function calls itself: into such a function LLVM takes no large array of another, so a
// text does not pay for the stack of a longer one.
fn file(size: usize, text: &[u8], out: &mut [u8]) -> Result<usize, Refusal>
    requires { length text.now ≤ 262144 }
    ensures { Answers (after_reading text.now (length out.old)) out.old out.new result }
{
    if size < text.len() {
        return file(larger(size), text, out);
    }
    if size <= 2048 {
        file_in::<8704, 4098, 8196>(text, out)
    } else if size <= 32768 {
        file_in::<131584, 65538, 65535>(text, out)
    } else {
        file_in::<1049088, 524290, 65535>(text, out)
    }
}

// The file of a text, or the refusal.
pub fn read_text(text: &[u8], out: &mut [u8]) -> Result<usize, Refusal>
    ensures { Answers (list_reading text.now (length out.old)) out.old out.new result }
{
    if 262144 < text.len() {
        return Err(Refusal {
            number: 33,
            place: 0,
        });
    }
    file(2048, text, out)
}
