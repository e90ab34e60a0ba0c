// One state. In all of these c is the cycle, y what is known of it, and v the byte on the bus: handed on one by one, as the rules
// take them.
ghost use Rattle.std.specs.Prelude.{◌≡◌};
ghost use Rattle.opcodes.specs.Cycles.{defined_of};
ghost use Rattle.machine.specs.Record.{with_regs};
ghost use Rattle.machine.specs.Cycle.{cycle_of};
ghost use Rattle.machine.specs.Step.{risen_of, wait_of, second_of, fetched_of, took_of, from_third};
ghost use Rattle.machine.specs.Step.{later_of, halted_of, moved_of, step_of};

use crate::cycle::{Cycle, code_at, cycle_at, is_defined};
use crate::ending::HLT;
use crate::record::{Machine, Position, ticked};
use alu::words::up;
use effect::kept::keep;
use opcodes::cycle::{raises, reads, waits};

impl Machine {
    // PC rises in T2 of a fetch and of an operand read.
    #[tactic(auto, unfolding(crate::specs::Step::risen_of, crate::specs::Record::with_regs))]
    fn rise(&mut self, code: u8)
        ensures { self.new ≡ with_regs (risen_of code self.old.kept self.old.regs) self.old }
    {
        if raises(code, self.kept.ack) {
            self.regs.pc = up(self.regs.pc, 1);
        }
    }

    // After T2 or a wait: READY counts where the cycle says so.
    #[tactic(auto, unfolding(crate::specs::Step::wait_of, crate::specs::Record::with_next))]
    fn wait(&mut self, counts: bool, c: u8)
        ensures { self.new ≡ wait_of counts c self.old }
    {
        self.next = if counts && self.lines.ready == 0 {
            Position::Wait { cycle: c }
        } else {
            Position::Later { cycle: c, state: 3 }
        };
    }

    // T2.
    #[tactic(auto, unfolding(crate::specs::Step::second_of))]
    fn second(&mut self, code: u8, c: u8)
        ensures { self.new ≡ second_of code c self.old }
    {
        self.rise(code);
        self.wait(waits(code), c);
    }

    // T3 of a fetch, with an opcode that is defined or not.
    #[tactic(auto, unfolding(crate::specs::Step::fetched_of, crate::specs::Record::with_next, crate::specs::Record::with_kept))]
    fn fetched(&mut self, defined: bool, v: u8)
        ensures { self.new ≡ fetched_of defined v self.old }
    {
        if defined {
            self.kept = keep(1, v, self.kept);
            self.next = Position::Later { cycle: 1, state: 4 };
        } else {
            self.clear(Position::Stop);
        }
    }

    // T3 of a later cycle: the byte is kept, where the cycle reads one.
    #[tactic(auto, unfolding(crate::specs::Step::took_of, crate::specs::Record::with_kept))]
    fn took(&mut self, code: u8, c: u8, v: u8)
        ensures { self.new ≡ took_of code c v self.old }
    {
        if reads(code) {
            self.kept = keep(c, v, self.kept);
        }
    }

    // State s from T3 on, T3 of a fetch apart: the end of the cycle, or its next state. As a call a state of a run took 7
    // instructions more.
    #[tactic(auto, unfolding(crate::specs::Step::from_third, crate::specs::Step::onward_of, crate::specs::Record::with_next))]
    #[inline(always)]
    fn from_third(&mut self, y: Cycle, c: u8, s: u8, v: u8)
        ensures { self.new ≡ from_third y c s v self.old }
    {
        if s == 3 {
            self.took(y.code, c, v);
        }
        match s {
            3 | 4 if y.states != s => {
                self.next = Position::Later {
                    cycle: c,
                    state: s + 1,
                };
            }
            _ => self.end(c, y.after),
        }
    }

    // State s of a cycle, T1 of the first apart. Only what the state needs is looked up.
    #[tactic(auto, unfolding(crate::specs::Step::later_of, crate::specs::Cycle::cycle_of, crate::specs::Record::with_next))]
    fn later(&mut self, c: u8, s: u8, v: u8)
        ensures { self.new ≡ later_of (cycle_of self.old.kept.opcode self.old.regs.f c) c s (defined_of v) v self.old }
    {
        match s {
            1 => self.next = Position::Later { cycle: c, state: 2 },
            2 => self.second(code_at(self.kept.opcode, c), c),
            3 if c == 1 => self.fetched(is_defined(v), v),
            _ => self.from_third(cycle_at(self.kept.opcode, self.regs.f, c), c, s, v),
        }
    }

    // A halt state.
    #[tactic(auto, unfolding(crate::specs::Step::halted_of, crate::specs::Record::with_kept))]
    fn halted(&mut self)
        ensures { self.new ≡ halted_of self.old }
    {
        self.kept = keep(1, HLT, self.kept);
        self.hold(2, 0);
    }

    // What the state that comes next changes, but for the clock.
    #[tactic(auto, unfolding(crate::specs::Step::moved_of, crate::specs::Record::with_next))]
    fn moved(&mut self, v: u8)
        ensures { self.new ≡ moved_of self.old.next v self.old }
    {
        match self.next {
            Position::Fetch => self.next = Position::Later { cycle: 1, state: 2 },
            Position::Later { cycle, state } => self.later(cycle, state, v),
            Position::Wait { cycle } => self.wait(true, cycle),
            Position::Hold { cycle } => {
                self.hold(cycle, cycle_at(self.kept.opcode, self.regs.f, cycle).after);
            }
            Position::Halt => self.halted(),
            Position::Stop => {}
        }
    }

    // One state, in place.
    #[tactic(auto, unfolding(crate::specs::Step::step_of, crate::specs::Record::with_clock))]
    pub fn advance(&mut self, v: u8)
        ensures { self.new ≡ step_of v self.old }
    {
        let clock = ticked(self.next, self.clock);
        self.moved(v);
        self.clock = clock;
    }

    // One state.
    pub fn step(mut self, v: u8) -> Machine
        ensures { result ≡ step_of v self }
    {
        self.advance(v);
        self
    }
}
