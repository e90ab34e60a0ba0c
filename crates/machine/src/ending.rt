// How a cycle and an instruction end. In all of these c is the cycle, and n the number of the cycle after it, 0 after the last, as
// the rules take them.
ghost use Rattle.std.specs.Prelude.{◌≡◌};
ghost use Rattle.machine.specs.Ending.{takes_of, acknowledge_of, clear_of, ended_of, follow_of, hold_of, end_of};

use crate::record::{DOWN, Machine, Position};
use effect::kept::kept_for;
use effect::last::effect;
use opcodes::cycle::Acknowledge;

pub(crate) const HLT: u8 = 0x76;

const EI: u8 = 0xFB;

impl Machine {
    // Whether an interrupt is taken.
    #[tactic(auto, unfolding(crate::specs::Ending::takes_of))]
    fn takes(&self) -> bool
        ensures { result ≡ takes_of self.now }
    {
        self.lines.int < DOWN && self.regs.inte && self.kept.opcode != EI
    }

    // The interrupt is taken.
    #[tactic(auto, unfolding(crate::specs::Ending::acknowledge_of))]
    fn acknowledge(&mut self, ack: Acknowledge)
        ensures { self.new ≡ acknowledge_of ack self.old }
    {
        self.kept = kept_for(ack, self.lines.int);
        self.lines.int = DOWN;
        self.regs.inte = false;
        self.next = Position::Fetch;
    }

    // Nothing is kept any more.
    #[tactic(auto, unfolding(crate::specs::Ending::clear_of))]
    pub(crate) fn clear(&mut self, next: Position)
        ensures { self.new ≡ clear_of next self.old }
    {
        self.kept = kept_for(Acknowledge::None, 0);
        self.next = next;
    }

    // The instruction is over: a fetch or a halt state, or an acknowledge in its place.
    #[tactic(auto, unfolding(crate::specs::Ending::ended_of))]
    fn ended(&mut self)
        ensures { self.new ≡ ended_of self.old }
    {
        match (self.takes(), self.kept.opcode == HLT) {
            (true, true) => self.acknowledge(Acknowledge::Halted),
            (true, false) => self.acknowledge(Acknowledge::Running),
            (false, true) => self.clear(Position::Halt),
            (false, false) => self.clear(Position::Fetch),
        }
    }

    // The cycle and its holds are over.
    #[tactic(auto, unfolding(crate::specs::Ending::follow_of, crate::specs::Record::with_next))]
    fn follow(&mut self, n: u8)
        ensures { self.new ≡ follow_of n self.old }
    {
        if n == 0 {
            self.ended();
        } else {
            self.next = Position::Later { cycle: n, state: 1 };
        }
    }

    // The changes of the cycle are made: a hold, or what follows.
    #[tactic(auto, unfolding(crate::specs::Ending::hold_of, crate::specs::Record::with_next))]
    pub(crate) fn hold(&mut self, c: u8, n: u8)
        ensures { self.new ≡ hold_of c n self.old }
    {
        if self.lines.hold == 1 {
            self.next = Position::Hold { cycle: c };
        } else {
            self.follow(n);
        }
    }

    // The last state of the cycle, with the instruction's changes if the cycle is its last.
    #[tactic(auto, unfolding(crate::specs::Ending::end_of, crate::specs::Record::with_regs))]
    pub(crate) fn end(&mut self, c: u8, n: u8)
        ensures { self.new ≡ end_of c n self.old }
    {
        if n == 0 {
            self.regs = effect(self.kept, self.regs);
        }
        self.hold(c, n);
    }
}
