// A chip family: the delays of its gates.

#![tactic(auto)]

ghost use Rattle.std.specs.Prelude.{◌≡◌};
ghost use Rattle.meaning.specs.Family.{unit_family, delay_in, family_of};

// Sixteen delays, in gate order.
#[derive(Clone, Copy, PartialEq, Eq, Debug)]
pub struct Family {
    pub delays: [u8; 16],
}

// All delays 1.
pub fn unit() -> Family
    ensures { result.delays ≡ unit_family }
{
    Family { delays: [1u8; 16] }
}

// The delay of a kind of gate; a number that is no gate's has none.
pub fn delay_of(family: Family, kind: u16) -> u32
    ensures { result ≡ delay_in family.delays kind }
{
    let delays = family.delays;
    if 16 <= kind {
        return 0;
    }
    delays[kind as usize] as u32
}

// The family of a file's bytes: sixteen of them, or else the unit family.
pub fn of_bytes(bytes: &[u8]) -> Family
    ensures { result.delays ≡ family_of bytes.now }
{
    if bytes.len() != 16 {
        return unit();
    }
    let mut delays = [0u8; 16];
    delays.copy_from_slice(bytes);
    Family { delays }
}
