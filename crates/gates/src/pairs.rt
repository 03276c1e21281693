// What a gate of two arguments gives: one look into a word of its rule.
ghost use Rattle.std.specs.Prelude.{◌≡◌, [], ◌∷◌};
ghost use Rattle.meaning.specs.Values.{value, code};
ghost use Rattle.gates.specs.Folds.{result_of};
ghost use Rattle.gates.specs.Tables.{pairs_of};

use crate::Rule;
use crate::folds::{Fold, coded};

// The nine results, two bits each: that of a and b stands from bit 8 a + 2 b on.
fn table(rule: Rule) -> u32
    ensures { result ≡ pairs_of rule }
{
    match rule {
        Rule::And => Fold::All.table(),
        Rule::Nand => 0x29_21_15,
        Rule::Or => Fold::Any.table(),
        Rule::Nor => 0x22_00_21,
        Rule::Xor => Fold::Odd.table(),
        Rule::Eqv => 0x2a_24_21,
    }
}

pub fn result(rule: Rule, a: u32, b: u32) -> u32
    ensures { result ≡ code (result_of rule (value a ∷ value b ∷ [])) }
{
    (table(rule) >> (8 * coded(a) + 2 * coded(b))) % 4
}
