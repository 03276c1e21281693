// The modules of a rewritten file, one behind the other.
ghost use Rattle.std.specs.Prelude.{◌+◌, ◌<◌, length};
ghost use Rattle.meaning.specs.Boxlist.{member};
ghost use Rattle.meaning.specs.Layout.{encode};
ghost use Rattle.meaning.specs.Withdrawn.{mentioned, rewrite_module, rewrite_file};
ghost use Rattle.laws.specs.Written.{module_bytes};
ghost use Rattle.bytes_out.specs.Filled.{Put};
ghost use Rattle.rewrite_bytes.specs.Used.{Stamped};
ghost use Rattle.rewrite_bytes.specs.Modules.{ModuleMarkable, ModuleWritable, Rewritable};

// The nets of the module that begins at a place are used.
fn mark_module(numbers: &[u16], start: usize, table: &mut [u8], stamp: u8)
    requires { ModuleMarkable numbers.now start table.old stamp }
    ensures { (s : ModuleMarkable numbers.now start table.old stamp)
        → Stamped table.new stamp (λ x. member x (mentioned s.m)) }
{
    let header = image::places::module_at(numbers, start);
    let inputs = start + 2;
    let inputs_end = inputs + header.inputs;
    let outputs = header.from;
    let outputs_end = header.to;
    crate::used::mark(&numbers[inputs..inputs_end], table, stamp);
    crate::used::mark(&numbers[outputs..outputs_end], table, stamp);
    crate::bodies::mark_body(numbers, outputs_end + 1, header.count, table, stamp);
}

// The module that begins at a place and has so many of the four gates, rewritten.
fn put_module(
    numbers: &[u16],
    start: usize,
    own: u32,
    table: &mut [u8],
    stamp: u8,
    out: &mut [u8],
    to: usize,
) -> usize
    requires { ModuleWritable numbers.now start own table.old stamp out.old to }
    ensures { (s : ModuleWritable numbers.now start own table.old stamp out.old to)
        → Put (module_bytes (rewrite_module s.there.m)) out.old to out.new result
        × Stamped table.new stamp (λ x. member x (mentioned s.there.m)) }
{
    mark_module(numbers, start, table, stamp);
    let header = image::places::module_at(numbers, start);
    let body = header.to;
    let front = write_pieces::numbers::put_list(&numbers[start..body], out, to);
    let count = header.count + 2 * own as usize;
    let counted = bytes_out::put(count as u16, out, front);
    crate::bodies::put_body(numbers, body + 1, header.count, table, stamp, out, counted)
}

// The whole file, from the front of `out` on. A module that has none of the four gates keeps its bytes.
pub fn put_file(
    file: &[u8],
    numbers: &[u16],
    starts: &[usize],
    offsets: &[usize],
    modules: usize,
    own: &[u32],
    out: &mut [u8],
) -> usize
    requires { Rewritable file.now numbers.now starts.now offsets.now modules own.now (length out.old) }
    ensures { (s : Rewritable file.now numbers.now starts.now offsets.now modules own.now (length out.old))
        → Put (encode (rewrite_file s.ms)) out.old 0 out.new result }
{
    let mut table = [0u8; 16384];
    let mut at = bytes_out::put(modules as u16, out, 0);
    for k in 0..modules {
        if own[k] == 0 {
            let from = offsets[k];
            let to = offsets[k + 1];
            at = write_pieces::bytes::copy(&file[from..to], out, at);
        } else {
            at = put_module(
                numbers,
                starts[k],
                own[k],
                &mut table,
                (k + 1) as u8,
                out,
                at,
            );
        }
    }
    at
}
