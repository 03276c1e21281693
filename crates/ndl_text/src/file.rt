// The whole text of a file.
ghost use Rattle.meaning.specs.Layout.{each};
ghost use Rattle.meaning.specs.Ndl.{module_text, ndl_text};
ghost use Rattle.bytes_out.specs.Filled.{Put};
ghost use Rattle.ndl_text.specs.Standing.{ModulesTold, FileTold};

use crate::modules::put;
use crate::occurrences::Pen;
use write_pieces::bytes::copy;

// So many modules, one block behind the other.
fn put_blocks(
    names: &[u8],
    numbers: &[u16],
    from: usize,
    count: usize,
    out: &mut [u8],
    at: usize,
) -> usize
    requires { ModulesTold names.now numbers.now from count out.old at }
    ensures { (t : ModulesTold names.now numbers.now from count out.old at)
        → Put (each (module_text names.now) t.ms) out.old at out.new result }
{
    let mut pen = Pen { from, at };
    for _ in 0..count {
        pen = put(names, numbers, pen.from, out, pen.at);
    }
    pen.at
}

// From the file's numbers, to the front of a buffer that has room for it.
pub fn put_file(names: &[u8], numbers: &[u16], out: &mut [u8]) -> usize
    requires { FileTold names.now numbers.now out.old }
    ensures { (t : FileTold names.now numbers.now out.old)
        → Put (ndl_text names.now t.ms) out.old 0 out.new result }
{
    let first = copy(b"COMPILE;\nDIRECTORY MASTER;\n\n", out, 0);
    let last = put_blocks(names, numbers, 1, numbers[0] as usize, out, first);
    copy(b"END COMPILE;\nEND;\n", out, last)
}
