// A list of slots in the image, with the nets that scratch has there.
ghost use Rattle.laws.specs.Written.{nets_bytes};
ghost use Rattle.bytes_out.specs.Filled.{Put};
ghost use Rattle.flat_bytes.specs.Slots.{Listable, nets_at};

// A list as a file has it: its count, then the nets at its slots. Answers the place behind it.
pub fn put(
    image: &[u16],
    from: usize,
    to: usize,
    scratch: &[u16],
    bytes: &mut [u8],
    at: usize,
) -> usize
    requires { Listable image.now from to scratch.now bytes.old at }
    ensures { Put (nets_bytes (nets_at image.now from to scratch.now)) bytes.old at bytes.new result }
{
    let count = to - from;
    let mut end = bytes_out::put(count as u16, bytes, at);
    for i in 0..count {
        end = bytes_out::put(scratch[image::entry(image, from + i)], bytes, end);
    }
    end
}
