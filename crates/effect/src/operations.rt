// The registers after an operation on them.
ghost use Rattle.std.specs.Prelude.{◌≡◌};
ghost use Rattle.effect.specs.Effect.{counted, dad_pair, accumulated, computed};

use crate::registers::Registers;
use alu::flags::{Flagged, flags_of, with_cy};
use alu::{groups, words};

impl Registers {
    // INR and DCR: a counted byte goes back into the register n, and its flags are set.
    #[tactic(auto, unfolding(crate::specs::Effect::counted))]
    pub(crate) fn counted(self, n: u8, x: Flagged) -> Registers
        ensures { result ≡ counted n x self }
    {
        self.with_reg(n, x.value).with_flags(x.flags)
    }

    // DAD: the pair p is added to HL; CY only.
    #[tactic(auto, unfolding(crate::specs::Effect::dad_pair))]
    pub(crate) fn dad(self, p: u8) -> Registers
        ensures { result ≡ dad_pair p self }
    {
        let sum = words::dad(self.pair(2), self.pair(p));
        self.with_pair(2, sum.value)
            .with_flags(with_cy(sum.cy, flags_of(self.f)))
    }

    // RLC, RRC, RAL, RAR, DAA, CMA, STC, CMC.
    #[tactic(auto, unfolding(crate::specs::Effect::accumulated))]
    pub(crate) fn accumulated(self, y: u8) -> Registers
        ensures { result ≡ accumulated y self }
    {
        self.with_result(groups::accumulator(y, self.a, flags_of(self.f)))
    }

    // Operation y of A and the byte v.
    #[tactic(auto, unfolding(crate::specs::Effect::computed))]
    pub(crate) fn computed(self, y: u8, v: u8) -> Registers
        ensures { result ≡ computed y v self }
    {
        self.with_result(groups::arithmetic(y, self.a, v, flags_of(self.f).cy))
    }
}
