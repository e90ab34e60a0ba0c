// The opcodes C0 to FF, by their lower digits y and z: jumps, calls and returns, the stack, ports, arithmetic with an operand.
ghost use Rattle.std.specs.Prelude.{◌≡◌, ◌/◌, ◌<◌};
ghost use Rattle.opcodes.specs.Instructions.{even, rets, calls, others, decode3, push, pop};
ghost use Rattle.effect.specs.Effect.{returned, jumped, called};
ghost use Rattle.effect.specs.Last.{after_last};

use crate::last::Last;
use crate::registers::Registers;
use alu::words::{down, up};

impl Last {
    // PC from the stack.
    #[tactic(auto, unfolding(crate::specs::Effect::returned))]
    fn returned(&self) -> Registers
        ensures { result ≡ returned self.now.kept self.now.regs }
    {
        Registers {
            pc: self.kept.wz(),
            sp: up(self.regs.sp, 2),
            ..self.regs
        }
    }

    // PC from the address read.
    #[tactic(auto, unfolding(crate::specs::Effect::jumped))]
    fn jumped(&self) -> Registers
        ensures { result ≡ jumped self.now.kept self.now.regs }
    {
        Registers {
            pc: self.kept.wz(),
            ..self.regs
        }
    }

    // PC to the given address, two bytes having been pushed.
    #[tactic(auto, unfolding(crate::specs::Effect::called))]
    fn called(&self, pc: u16) -> Registers
        ensures { result ≡ called pc self.now.regs }
    {
        Registers {
            pc,
            sp: down(self.regs.sp, 2),
            ..self.regs
        }
    }

    // POP, RET, PCHL, SPHL.
    #[tactic(auto, unfolding(crate::specs::Effect::finish, opcodes::specs::Instructions::even, opcodes::specs::Instructions::rets, opcodes::specs::Instructions::nth))]
    fn pop_ret(&self, y: u8) -> Registers
        requires { y < 8 }
        ensures { result ≡ after_last (even y (pop (y / 2)) (rets (y / 2))) self.now }
    {
        match y {
            1 => self.returned(),
            3 => self.regs,
            5 => Registers {
                pc: self.regs.hl(),
                ..self.regs
            },
            7 => Registers {
                sp: self.regs.hl(),
                ..self.regs
            },
            _ => self.regs.pop_pair(y / 2, self.kept.b2, self.kept.b1),
        }
    }

    // PUSH and CALL. The codes DD, ED and FD, undefined, leave the registers.
    #[tactic(auto, unfolding(crate::specs::Effect::finish, opcodes::specs::Instructions::even, opcodes::specs::Instructions::calls))]
    fn push_call(&self, y: u8) -> Registers
        ensures { result ≡ after_last (even y (push (y / 2)) (calls (y / 2))) self.now }
    {
        if y % 2 == 0 {
            Registers {
                sp: down(self.regs.sp, 2),
                ..self.regs
            }
        } else if y == 1 {
            self.called(self.kept.wz())
        } else {
            self.regs
        }
    }

    // JMP, OUT, IN, XTHL, XCHG, DI, EI.
    #[tactic(auto, unfolding(crate::specs::Effect::finish, opcodes::specs::Instructions::others, opcodes::specs::Instructions::nth))]
    fn other(&self, y: u8) -> Registers
        ensures { result ≡ after_last (others y) self.now }
    {
        match y {
            0 => self.jumped(),
            3 => Registers {
                a: self.kept.b2,
                ..self.regs
            },
            4 => Registers {
                h: self.kept.b2,
                l: self.kept.b1,
                ..self.regs
            },
            5 => Registers {
                h: self.regs.d,
                l: self.regs.e,
                d: self.regs.h,
                e: self.regs.l,
                ..self.regs
            },
            6 => Registers {
                inte: false,
                ..self.regs
            },
            7 => Registers {
                inte: true,
                ..self.regs
            },
            _ => self.regs,
        }
    }

    // A return, a jump or a call whose condition is not met leaves the registers.
    #[tactic(auto, unfolding(crate::specs::Effect::finish, opcodes::specs::Instructions::decode3, opcodes::specs::Instructions::nth, crate::specs::Effect::returned, crate::specs::Effect::jumped, crate::specs::Effect::called))]
    pub(crate) fn high(&self, y: u8, z: u8) -> Registers
        requires { (y < 8) × (z < 8) }
        ensures { result ≡ after_last (decode3 y z) self.now }
    {
        match z {
            0 | 2 | 4 if !self.met => self.regs,
            0 => self.returned(),
            1 => self.pop_ret(y),
            2 => self.jumped(),
            3 => self.other(y),
            4 => self.called(self.kept.wz()),
            5 => self.push_call(y),
            6 => self.regs.computed(y, self.kept.b1),
            _ => self.called(8 * u16::from(y)),
        }
    }
}
