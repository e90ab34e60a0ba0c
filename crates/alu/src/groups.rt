// Intel's two groups of eight operations, chosen by a digit of the opcode: y stays that number, as the manual and C have it.
ghost use Rattle.std.specs.Prelude.{◌≡◌};
ghost use Rattle.alu.specs.Groups.{arithmetic_of, accumulator_of};

use crate::accumulator::{left, right, with_carry};
use crate::flags::{Flagged, Flags};
use crate::{logic, sums};

// ADD, ADC, SUB, SBB, ANA, XRA, ORA, CMP for y from 0 to 7; cy is the carry from before.
#[tactic(auto, unfolding(crate::specs::Groups::arithmetic_of))]
pub fn arithmetic(y: u8, a: u8, b: u8, cy: bool) -> Flagged
    ensures { result ≡ arithmetic_of y a b cy }
{
    match y {
        0 => sums::add(a, b, false),
        1 => sums::add(a, b, cy),
        2 => sums::sub(a, b, false),
        3 => sums::sub(a, b, cy),
        4 => logic::ana(a, b),
        5 => logic::xra(a, b),
        6 => logic::ora(a, b),
        _ => sums::cmp(a, b),
    }
}

// RLC, RRC, RAL, RAR, DAA, CMA, STC, CMC for y from 0 to 7.
#[tactic(auto, unfolding(crate::specs::Groups::accumulator_of, crate::specs::Accumulator::rlc_of, crate::specs::Accumulator::rrc_of, crate::specs::Accumulator::ral_of, crate::specs::Accumulator::rar_of, crate::specs::Accumulator::cma_of, crate::specs::Accumulator::stc_of, crate::specs::Accumulator::cmc_of))]
pub fn accumulator(y: u8, a: u8, f: Flags) -> Flagged
    ensures { result ≡ accumulator_of y a f }
{
    match y {
        0 => left(a, a / 128, f),
        1 => right(a, a % 2, f),
        2 => left(a, u8::from(f.cy), f),
        3 => right(a, u8::from(f.cy), f),
        4 => sums::daa(a, f.ac, f.cy),
        5 => Flagged {
            value: !a,
            flags: f,
        },
        6 => with_carry(a, true, f),
        _ => with_carry(a, !f.cy, f),
    }
}
