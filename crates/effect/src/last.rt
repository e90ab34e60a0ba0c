// An instruction's last state.
ghost use Rattle.std.specs.Prelude.{◌≡◌};
ghost use Rattle.opcodes.specs.Instructions.{decode};
ghost use Rattle.effect.specs.Effect.{effect_of};
ghost use Rattle.effect.specs.Last.{after_last, operand_of};

use crate::kept::Kept;
use crate::registers::Registers;
use opcodes::condition;

// What it goes by: whether the condition is met, the bytes read, and the registers before it.
#[derive(Clone, Copy)]
pub(crate) struct Last {
    pub(crate) met: bool,
    pub(crate) kept: Kept,
    pub(crate) regs: Registers,
}

impl Last {
    // What the digit n numbers: a register, or for M the byte read.
    #[tactic(auto, unfolding(crate::specs::Last::operand_of))]
    pub(crate) fn operand(&self, n: u8) -> u8
        ensures { result ≡ operand_of n self.now.kept self.now.regs }
    {
        if n == 6 {
            self.kept.b1
        } else {
            self.regs.reg(n)
        }
    }

    // The registers after it. A move to M sets none, and neither does HLT, which stands where M would move to M. (A match on the
    // digits, as in `low`, `high` and the groups of alu: it is the decoding, and a table of functions would be no plainer.)
    #[tactic(auto, using(crate::proofs::Operands::moved, crate::proofs::Operands::computed_lem), unfolding(opcodes::specs::Instructions::decode, opcodes::specs::Instructions::nth))]
    fn registers(&self) -> Registers
        ensures { result ≡ after_last (decode self.now.kept.opcode) self.now }
    {
        let y = self.kept.opcode / 8 % 8;
        let z = self.kept.opcode % 8;
        match self.kept.opcode / 64 {
            0 => self.low(y, z),
            1 => self.regs.with_reg(y, self.operand(z)),
            2 => self.regs.computed(y, self.operand(z)),
            _ => self.high(y, z),
        }
    }
}

// What the last state makes of the registers, from the opcode and the bytes kept.
#[tactic(auto, unfolding(crate::specs::Effect::effect_of))]
pub fn effect(k: Kept, r: Registers) -> Registers
    ensures { result ≡ effect_of k r }
{
    let last = Last {
        met: condition::met(k.opcode, r.f),
        kept: k,
        regs: r,
    };
    last.registers()
}
