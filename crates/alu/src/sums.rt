// Addition, subtraction, comparison, counting and decimal adjusting.
ghost use Rattle.std.specs.Prelude.{◌≡◌};
ghost use Rattle.alu.specs.Sums.{sum_of, half_carry_of, add_of, sub_of, cmp_of, keep_cy, inr_of, dcr_of, daa_of};

use crate::flags::{Flagged, result, with_cy};

// The whole sum of two bytes and a carry.
#[tactic(auto, unfolding(crate::specs::Sums::sum_of))]
fn sum(a: u8, b: u8, c: bool) -> u16
    ensures { result ≡ sum_of a b c }
{
    u16::from(a) + u16::from(b) + u16::from(c)
}

// The carry out of bit 3 of that sum.
#[tactic(auto, unfolding(crate::specs::Sums::half_carry_of))]
fn half_carry(a: u8, b: u8, c: bool) -> bool
    ensures { result ≡ half_carry_of a b c }
{
    15 < a % 16 + b % 16 + u8::from(c)
}

// ADD, and ADC with the carry.
#[tactic(auto, unfolding(crate::specs::Sums::add_of))]
pub(crate) fn add(a: u8, b: u8, c: bool) -> Flagged
    ensures { result ≡ add_of a b c }
{
    let total = sum(a, b, c);
    result((total % 256) as u8, half_carry(a, b, c), 255 < total)
}

// SUB, and SBB with the borrow: the complement and 1 less the borrow are added.
#[tactic(auto, unfolding(crate::specs::Sums::sub_of))]
pub(crate) fn sub(a: u8, b: u8, c: bool) -> Flagged
    ensures { result ≡ sub_of a b c }
{
    let total = sum(a, !b, !c);
    let borrow = u16::from(a) < u16::from(b) + u16::from(c);
    result((total % 256) as u8, half_carry(a, !b, !c), borrow)
}

// CMP: the flags of the difference; the byte stays.
#[tactic(auto, unfolding(crate::specs::Sums::cmp_of))]
pub(crate) fn cmp(a: u8, b: u8) -> Flagged
    ensures { result ≡ cmp_of a b }
{
    Flagged {
        value: a,
        ..sub(a, b, false)
    }
}

// A result whose CY is the one from before.
#[tactic(auto, unfolding(crate::specs::Sums::keep_cy))]
fn keep_cy(cy: bool, x: Flagged) -> Flagged
    ensures { result ≡ keep_cy cy x }
{
    Flagged {
        flags: with_cy(cy, x.flags),
        ..x
    }
}

// INR: one more, CY kept.
#[tactic(auto, unfolding(crate::specs::Sums::inr_of))]
pub fn inr(v: u8, cy: bool) -> Flagged
    ensures { result ≡ inr_of v cy }
{
    keep_cy(cy, add(v, 1, false))
}

// DCR: one less, CY kept.
#[tactic(auto, unfolding(crate::specs::Sums::dcr_of))]
pub fn dcr(v: u8, cy: bool) -> Flagged
    ensures { result ≡ dcr_of v cy }
{
    keep_cy(cy, sub(v, 1, false))
}

// DAA: 6 is added for the low digit, then 96 for the high one, which is judged by the old A.
#[tactic(auto, unfolding(crate::specs::Sums::daa_of))]
pub(crate) fn daa(a: u8, ac: bool, cy: bool) -> Flagged
    ensures { result ≡ daa_of a ac cy }
{
    let six = 6 * u8::from(9 < a % 16 || ac);
    let new = a.wrapping_add(six);
    let high = 0x99 < a || cy;
    result(
        new.wrapping_add(96 * u8::from(high)),
        half_carry(a, six, false),
        high,
    )
}
