// What stands in front of the gates in a file of one module.
ghost use Rattle.flat_bytes.specs.Front.{Frontable, Fronted};

use image::places::Header;

// Count of modules, the module's number, the nets of its inputs and of its outputs, and the count of gates. The lists of inputs and
// outputs stand in the image, where the module's numbers begin at `start`. Answers the place behind them.
pub fn set_front(
    image: &[u16],
    start: usize,
    header: Header,
    number: u16,
    gates: u16,
    scratch: &[u16],
    bytes: &mut [u8],
    at: usize,
) -> usize
    requires { Frontable image.now start header number gates scratch.now bytes.old at }
    ensures { Fronted image.now start header number gates scratch.now bytes.old at bytes.new result }
{
    let own = bytes_out::put(1, bytes, at);
    let first = bytes_out::put(number, bytes, own);
    let inputs = start + 2;
    let second = crate::slots::put(image, inputs, inputs + header.inputs, scratch, bytes, first);
    let third = crate::slots::put(image, header.from, header.to, scratch, bytes, second);
    bytes_out::put(gates, bytes, third)
}
