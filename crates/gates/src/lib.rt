// The sixteen gates: one decision over gate numbers, from which the count of arguments and the rule of the value come.
#![tactic(auto)]

ghost use Rattle.std.specs.Prelude.{◌≡◌};
ghost use Rattle.gates.specs.Kind.{kind_of};

pub mod folds;
pub mod pairs;

// What a gate makes of its arguments, however many they are. With one argument B-BUF is an AND and B-NOT a NAND.
#[derive(Clone, Copy, PartialEq, Eq, Debug)]
pub enum Rule {
    And,
    Nand,
    Or,
    Nor,
    Xor,
    Eqv,
}

// What a number stands for: a gate, with its rule and its count of arguments, or a module.
#[derive(Clone, Copy, PartialEq, Eq, Debug)]
pub enum Kind {
    Gate(Rule, usize),
    Module,
}

// In a family the count of arguments rises with the number: B-NOT is the first of the NANDs.
pub fn kind_of(number: u16) -> Kind
    ensures { result ≡ kind_of number }
{
    let n = number as usize;
    match n {
        0 => Kind::Gate(Rule::And, 1),
        1..=4 => Kind::Gate(Rule::Nand, n),
        5..=7 => Kind::Gate(Rule::Or, n - 3),
        8 => Kind::Gate(Rule::Eqv, 2),
        9 => Kind::Gate(Rule::Xor, 2),
        10..=12 => Kind::Gate(Rule::And, n - 8),
        13..=15 => Kind::Gate(Rule::Nor, n - 11),
        _ => Kind::Module,
    }
}
