// The registers, by name and by the numbers that opcodes use.
ghost use Rattle.std.specs.Prelude.{◌≡◌};
ghost use Rattle.effect.specs.Registers.{word, reg_of, with_reg, with_result, with_flags};
ghost use Rattle.effect.specs.Pairs.{pair_of, with_pair, pop_pair, pair_high_of, pair_low_of};

use alu::flags::{Flagged, Flags, flag_byte, flags_of};
use alu::words::up;

// f is the flag byte; inte says whether interrupts are enabled.
#[derive(Clone, Copy, Debug, PartialEq, Eq)]
pub struct Registers {
    pub a: u8,
    pub f: u8,
    pub b: u8,
    pub c: u8,
    pub d: u8,
    pub e: u8,
    pub h: u8,
    pub l: u8,
    pub sp: u16,
    pub pc: u16,
    pub inte: bool,
}

// A 16-bit number from its bytes. u16::from_be_bytes was too slow: the compiler then kept pairs of registers packed, which cost
// some 12 instructions a state.
pub(crate) fn word(high: u8, low: u8) -> u16
    ensures { result ≡ word high low }
{
    u16::from(high) * 256 + u16::from(low)
}

impl Registers {
    // The register n, of B C D E H L M A; 0 for M. (Here and below a list and a number of it, as the definitions have it: the
    // numbers are those in opcodes. Where one function gave the eight to `reg` and `with_reg`, a state took 7 instructions more.)
    #[tactic(auto, unfolding(crate::specs::Registers::reg_of))]
    pub(crate) fn reg(self, n: u8) -> u8
        ensures { result ≡ reg_of n self }
    {
        let all = [self.b, self.c, self.d, self.e, self.h, self.l, 0, self.a];
        all[usize::from(n % 8)]
    }

    // The registers with v in the register n; for M they stay.
    #[tactic(auto, unfolding(crate::specs::Registers::with_reg))]
    pub(crate) fn with_reg(self, n: u8, v: u8) -> Registers
        ensures { result ≡ with_reg n v self }
    {
        let mut all = [self.b, self.c, self.d, self.e, self.h, self.l, 0, self.a];
        all[usize::from(n % 8)] = v;
        let [b, c, d, e, h, l, _, a] = all;
        Registers {
            a,
            b,
            c,
            d,
            e,
            h,
            l,
            ..self
        }
    }

    // The registers with other flags.
    #[tactic(auto, unfolding(crate::specs::Registers::with_flags))]
    pub(crate) fn with_flags(self, flags: Flags) -> Registers
        ensures { result ≡ with_flags flags self }
    {
        Registers {
            f: flag_byte(flags),
            ..self
        }
    }

    // The registers with a result in A, and its flags.
    #[tactic(auto, unfolding(crate::specs::Registers::with_result, crate::specs::Registers::with_flags))]
    pub(crate) fn with_result(self, x: Flagged) -> Registers
        ensures { result ≡ with_result x self }
    {
        Registers {
            a: x.value,
            ..self.with_flags(x.flags)
        }
    }

    // HL.
    pub(crate) fn hl(self) -> u16
        ensures { result ≡ word self.h self.l }
    {
        word(self.h, self.l)
    }

    // The pair p, of BC DE HL SP.
    #[tactic(auto, unfolding(crate::specs::Pairs::pair_of))]
    pub(crate) fn pair(self, p: u8) -> u16
        ensures { result ≡ pair_of p self }
    {
        let all = [
            word(self.b, self.c),
            word(self.d, self.e),
            self.hl(),
            self.sp,
        ];
        all[usize::from(p % 4)]
    }

    // The registers with v in the pair p.
    #[tactic(auto, unfolding(crate::specs::Pairs::with_pair))]
    pub(crate) fn with_pair(self, p: u8, v: u16) -> Registers
        ensures { result ≡ with_pair p v self }
    {
        let [high, low] = v.to_be_bytes();
        match p {
            0 => Registers {
                b: high,
                c: low,
                ..self
            },
            1 => Registers {
                d: high,
                e: low,
                ..self
            },
            2 => Registers {
                h: high,
                l: low,
                ..self
            },
            _ => Registers { sp: v, ..self },
        }
    }

    // POP: the registers with two bytes of the stack in the pair p, of BC DE HL PSW, and SP past them.
    #[tactic(auto, unfolding(crate::specs::Pairs::pop_pair, crate::specs::Pairs::with_pair))]
    pub(crate) fn pop_pair(self, p: u8, high: u8, low: u8) -> Registers
        ensures { result ≡ pop_pair p high low self }
    {
        let sp = up(self.sp, 2);
        if p < 3 {
            Registers {
                sp,
                ..self.with_pair(p, word(high, low))
            }
        } else {
            Registers {
                a: high,
                f: flag_byte(flags_of(low)),
                sp,
                ..self
            }
        }
    }

    // The bytes of the pair p that PUSH writes, of BC DE HL PSW.
    #[tactic(auto, unfolding(crate::specs::Pairs::pair_high_of))]
    pub(crate) fn pair_high(self, p: u8) -> u8
        ensures { result ≡ pair_high_of p self }
    {
        let all = [self.b, self.d, self.h, self.a];
        all[usize::from(p % 4)]
    }

    #[tactic(auto, unfolding(crate::specs::Pairs::pair_low_of))]
    pub(crate) fn pair_low(self, p: u8) -> u8
        ensures { result ≡ pair_low_of p self }
    {
        let all = [self.c, self.e, self.l, self.f];
        all[usize::from(p % 4)]
    }
}
