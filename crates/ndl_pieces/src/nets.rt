// Lists of nets.
ghost use Rattle.meaning.specs.Lists.{All};
ghost use Rattle.meaning.specs.Ceilings.{Small};
ghost use Rattle.meaning.specs.Layout.{each};
ghost use Rattle.meaning.specs.Ndl.{nets_text, keyword_line};
ghost use Rattle.bytes_out.specs.Filled.{Put};
ghost use Rattle.write_pieces.specs.Rooms.{Room};
ghost use Rattle.ndl_pieces.specs.Apart.{signed, apart};

use crate::numerals::put_named;
use write_pieces::bytes::copy;

// A net with a sign in front.
fn put_signed(sign: u8, net: u16, out: &mut [u8], at: usize) -> usize
    requires { Small net × Room (signed sign net) out.old at }
    ensures { Put (signed sign net) out.old at out.new result }
{
    out[at] = sign;
    put_named(b'N', net, out, at + 1)
}

// Nets with a sign in front of each.
pub fn put_more(sign: u8, nets: &[u16], out: &mut [u8], at: usize) -> usize
    requires { All Small nets.now × Room (each (signed sign) nets.now) out.old at }
    ensures { Put (each (signed sign) nets.now) out.old at out.new result }
{
    let mut at = at;
    for i in 0..nets.len() {
        at = put_signed(sign, nets[i], out, at);
    }
    at
}

// Nets with a sign in front of each but the first.
pub fn put_apart(sign: u8, nets: &[u16], out: &mut [u8], at: usize) -> usize
    requires { All Small nets.now × Room (apart sign nets.now) out.old at }
    ensures { Put (apart sign nets.now) out.old at out.new result }
{
    if nets.len() < 1 {
        return at;
    }
    let next = put_named(b'N', nets[0], out, at);
    put_more(sign, &nets[1..], out, next)
}

// Nets as a listing has them.
pub fn put(nets: &[u16], out: &mut [u8], at: usize) -> usize
    requires { All Small nets.now × Room (nets_text nets.now) out.old at }
    ensures { Put (nets_text nets.now) out.old at out.new result }
{
    put_apart(b',', nets, out, at)
}

// A keyword and its nets on a line.
pub fn put_line(keyword: &[u8], nets: &[u16], out: &mut [u8], at: usize) -> usize
    requires { All Small nets.now × Room (keyword_line keyword.now nets.now) out.old at }
    ensures { Put (keyword_line keyword.now nets.now) out.old at out.new result }
{
    let word = copy(keyword, out, at);
    if nets.len() < 1 {
        return copy(b";\n", out, word);
    }
    let first = copy(b" ", out, word);
    let end = put(nets, out, first);
    copy(b";\n", out, end)
}
