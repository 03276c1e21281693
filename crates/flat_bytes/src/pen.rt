// The gates of the new module, written one behind the other.
ghost use Rattle.laws.specs.Written.{occurrence_bytes};
ghost use Rattle.bytes_out.specs.Filled.{Put};
ghost use Rattle.flat_bytes.specs.Gates.{Settable, gate_at};

// How far the new module has come: the number that the next gate drives, and the place behind the bytes of the gates so far.
#[derive(Clone, Copy)]
pub struct Pen {
    pub next: u16,
    pub at: usize,
}

// Writes a gate with the net that it drives and the nets at the slots of its arguments. Answers the place behind it.
pub fn set_gate(
    kind: u16,
    net: u16,
    image: &[u16],
    from: usize,
    to: usize,
    scratch: &[u16],
    bytes: &mut [u8],
    at: usize,
) -> usize
    requires { Settable kind net image.now from to scratch.now bytes.old at }
    ensures { Put (occurrence_bytes (gate_at kind net image.now from to scratch.now)) bytes.old at bytes.new result }
{
    let drives = bytes_out::put(1, bytes, at);
    let refers = bytes_out::put(net, bytes, drives);
    let takes = bytes_out::put(kind, bytes, refers);
    crate::slots::put(image, from, to, scratch, bytes, takes)
}
