// The whole text of a file.
ghost use Rattle.meaning.specs.ListPrint.{list_text};
ghost use Rattle.bytes_out.specs.Filled.{Put};
ghost use Rattle.print_lines.specs.Standing.{FileTold};

use crate::modules::put_all;
use write_pieces::bytes::copy;

// From the file's numbers, to the front of a buffer that has room for it.
pub fn put_file(numbers: &[u16], out: &mut [u8]) -> usize
    requires { FileTold numbers.now out.old }
    ensures { (t : FileTold numbers.now out.old)
        → Put (list_text t.ms) out.old 0 out.new result }
{
    let first = copy(b"(", out, 0);
    let pen = put_all(numbers, 1, numbers[0] as usize, out, first);
    copy(b")\n", out, pen.at)
}
