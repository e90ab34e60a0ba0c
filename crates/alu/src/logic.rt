// AND, exclusive OR and OR, bit by bit.
ghost use Rattle.std.specs.Prelude.{◌≡◌};
ghost use Rattle.alu.specs.Logic.{and_carry_of, ana_of, xra_of, ora_of};

use crate::flags::{Flagged, result};

// AC after AND: whether bit 3 of either byte is set.
#[tactic(auto, unfolding(crate::specs::Logic::and_carry_of))]
fn and_carry(a: u8, b: u8) -> bool
    ensures { result ≡ and_carry_of a b }
{
    a / 8 % 2 == 1 || b / 8 % 2 == 1
}

// ANA.
#[tactic(auto, unfolding(crate::specs::Logic::ana_of))]
pub(crate) fn ana(a: u8, b: u8) -> Flagged
    ensures { result ≡ ana_of a b }
{
    result(a & b, and_carry(a, b), false)
}

// XRA.
#[tactic(auto, unfolding(crate::specs::Logic::xra_of))]
pub(crate) fn xra(a: u8, b: u8) -> Flagged
    ensures { result ≡ xra_of a b }
{
    result(a ^ b, false, false)
}

// ORA.
#[tactic(auto, unfolding(crate::specs::Logic::ora_of))]
pub(crate) fn ora(a: u8, b: u8) -> Flagged
    ensures { result ≡ ora_of a b }
{
    result(a | b, false, false)
}
