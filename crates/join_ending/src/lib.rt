// The end of joining: the modules of the joined file stand gathered from place 2 on, and the count is put in front of them, in one byte or two;
// then the check, and the room in the buffer.
#![tactic(auto)]

ghost use Rattle.std.specs.Prelude.{◌≡◌, length};
ghost use Rattle.meaning.specs.Calls.{if_good, fitting};
ghost use Rattle.meaning.specs.Verdict.{file_verdict};
ghost use Rattle.meaning.specs.Layout.{encode};
ghost use Rattle.meaning.specs.Shelves.{join_on};
ghost use Rattle.answers.specs.Answers.{Answers};
ghost use Rattle.join_ending.specs.Joins.{of_writing, neither, Joins};
ghost use Rattle.join_ending.specs.Assembling.{Whole, Assembled};

use refusals::Refusal;
use two_files::{ShelfRefusal, Which};
use write_joined::Gathered;

// What is about neither file.
fn of_joined(writing: Result<usize, Refusal>) -> Result<usize, ShelfRefusal>
    ensures { result ≡ of_writing writing }
{
    let which = Which::Neither;
    writing.map_err(|refusal| ShelfRefusal { which, refusal })
}

// The check, and then the room in the buffer.
fn deliver(file: &[u8], out: &mut [u8]) -> Result<usize, Refusal>
    requires { Whole file.now }
    ensures { (w : Whole file.now)
        → Answers (if_good (file_verdict w.ms) (fitting (encode w.ms) 0 (length out.old))) out.old out.new result }
{
    call_door::modules(file)?;
    write_order::answer::answer(file, out)
}

// 4 if over 128 modules, 1 if over 65,535 bytes; then the count, and the file goes on.
fn join_whole(all: Gathered, bytes: &mut [u8], out: &mut [u8]) -> Result<usize, Refusal>
    requires { Assembled all bytes.old }
    ensures { (a : Assembled all bytes.old) → Answers (join_on (length out.old) a.ms) out.old out.new result }
{
    let modules = all.modules;
    let end = all.at;
    if 128 < modules {
        return Err(Refusal::at(4, 0));
    }
    let start = 1 - modules / 128;
    if 65535 < end - start {
        return Err(Refusal::at(1, 0));
    }
    bytes_out::put(modules as u16, bytes, start);
    deliver(&bytes[start..end], out)
}

// What is refused here is about the joined file.
pub fn assemble(all: Gathered, bytes: &mut [u8], out: &mut [u8]) -> Result<usize, ShelfRefusal>
    requires { Assembled all bytes.old }
    ensures { (a : Assembled all bytes.old)
        → Joins (neither (join_on (length out.old) a.ms)) out.old out.new result }
{
    of_joined(join_whole(all, bytes, out))
}
