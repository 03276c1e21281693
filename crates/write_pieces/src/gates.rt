// The gates that written modules are made of.
ghost use Rattle.std.specs.Prelude.{◌≡◌};
ghost use Rattle.write_pieces.specs.Gates.{number_of};

// Each by the number that stands for it in a file.
#[derive(Clone, Copy, PartialEq, Eq, Debug)]
pub enum Gate {
    Buffer = 0,
    Not = 1,
    Or = 5,
    Xor = 9,
    And = 10,
    And3 = 11,
    Nor = 13,
}

impl Gate {
    // The number of a gate.
    pub fn number(self) -> u8
        ensures { result ≡ number_of self }
    {
        self as u8
    }
}
