// What a cycle puts on the bus, by the two digits of its code.
ghost use Rattle.std.specs.Prelude.{◌≡◌};
ghost use Rattle.effect.specs.Bus.{address_of, given_of};

use crate::kept::Kept;
use crate::registers::Registers;
use alu::words::{down, up};

// The address, by the first digit; pc is what PC was in the cycle's T1. A port stands in both halves of it: 257 times, as the
// definition says. (Kept bytes and registers apart, here, in `given` and in `effect`: public, and told so by `address_of`.)
#[tactic(auto, unfolding(crate::specs::Bus::address_of))]
pub fn address(code: u8, pc: u16, k: Kept, r: Registers) -> u16
    ensures { result ≡ address_of code pc k r }
{
    match code / 16 {
        1 | 2 | 12 => pc,
        3 => r.hl(),
        4 => r.pair(k.opcode / 16),
        5 => k.wz(),
        6 => up(k.wz(), 1),
        7 => r.sp,
        8 => up(r.sp, 1),
        9 => down(r.sp, 1),
        10 => down(r.sp, 2),
        11 => 257 * u16::from(k.b1),
        _ => 0,
    }
}

// The byte that a write or an output gives, by the second digit.
#[tactic(auto, unfolding(crate::specs::Bus::given_of))]
pub fn given(code: u8, k: Kept, r: Registers) -> u8
    ensures { result ≡ given_of code k r }
{
    let [high, low] = r.pc.to_be_bytes();
    match code % 16 {
        1 => r.a,
        2 => r.h,
        3 | 12 => r.l,
        4 => r.reg(k.opcode),
        5 => k.b1,
        6 => k.b1.wrapping_add(1),
        7 => k.b1.wrapping_sub(1),
        8 => high,
        9 => low,
        10 => r.pair_high(k.opcode / 16),
        11 => r.pair_low(k.opcode / 16),
        _ => 0,
    }
}
