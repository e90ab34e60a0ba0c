// The opcodes 00 to 3F, by their lower digits y and z.
ghost use Rattle.std.specs.Prelude.{◌≡◌, ◌/◌, ◌<◌};
ghost use Rattle.opcodes.specs.Instructions.{even, transfers, decode0, lxi, dad, inx, dcx};
ghost use Rattle.effect.specs.Last.{after_last};

use crate::last::Last;
use crate::registers::Registers;
use alu::flags::flags_of;
use alu::sums::{dcr, inr};
use alu::words::{down, up};

impl Last {
    // LXI and DAD, with the pair y / 2.
    #[tactic(auto, unfolding(crate::specs::Effect::finish, opcodes::specs::Instructions::even))]
    fn lxi_dad(&self, y: u8) -> Registers
        ensures { result ≡ after_last (even y (lxi (y / 2)) (dad (y / 2))) self.now }
    {
        if y % 2 == 0 {
            self.regs.with_pair(y / 2, self.kept.wz())
        } else {
            self.regs.dad(y / 2)
        }
    }

    // STAX, LDAX, SHLD, LHLD, STA, LDA.
    #[tactic(auto, unfolding(crate::specs::Effect::finish, opcodes::specs::Instructions::transfers, opcodes::specs::Instructions::nth))]
    fn transfer(&self, y: u8) -> Registers
        ensures { result ≡ after_last (transfers y) self.now }
    {
        match y {
            1 | 3 => Registers {
                a: self.kept.b1,
                ..self.regs
            },
            5 => Registers {
                h: self.kept.b4,
                l: self.kept.b3,
                ..self.regs
            },
            7 => Registers {
                a: self.kept.b3,
                ..self.regs
            },
            _ => self.regs,
        }
    }

    // INX and DCX touch no flag.
    #[tactic(auto, unfolding(crate::specs::Effect::finish, opcodes::specs::Instructions::even))]
    fn inx_dcx(&self, y: u8) -> Registers
        ensures { result ≡ after_last (even y (inx (y / 2)) (dcx (y / 2))) self.now }
    {
        let v = self.regs.pair(y / 2);
        let counted = if y % 2 == 0 { up(v, 1) } else { down(v, 1) };
        self.regs.with_pair(y / 2, counted)
    }

    // INR, DCR and MVI of M set no register: its byte went out in a cycle. (The digits are handed on, as `decode0` and `decode3`
    // take them: so `y < 8` here and in `high`.)
    #[tactic(auto, using(crate::proofs::Operands::low), unfolding(opcodes::specs::Instructions::decode0, opcodes::specs::Instructions::nth))]
    pub(crate) fn low(&self, y: u8, z: u8) -> Registers
        requires { (y < 8) × (z < 8) }
        ensures { result ≡ after_last (decode0 y z) self.now }
    {
        let cy = flags_of(self.regs.f).cy;
        match z {
            0 => self.regs,
            1 => self.lxi_dad(y),
            2 => self.transfer(y),
            3 => self.inx_dcx(y),
            4 => self.regs.counted(y, inr(self.operand(y), cy)),
            5 => self.regs.counted(y, dcr(self.operand(y), cy)),
            6 => self.regs.with_reg(y, self.kept.b1),
            _ => self.regs.accumulated(y),
        }
    }
}
