// What a state shows of its cycle and of the address bus.
ghost use Rattle.std.specs.Prelude.{◌≡◌};
ghost use Rattle.machine.specs.Look.{place_of, stands_of, first_pc_of, shown_of, look_at, look_of};

use crate::cycle::code_at;
use crate::record::{Machine, Position};
use alu::words::down;
use effect::bus::address;
use opcodes::cycle::{HALTING, kind, raises};

// A cycle's number, and the trace's code of a state in it: the bytes that the trace carries, so no enum.
#[derive(Clone, Copy, Debug, PartialEq, Eq)]
pub struct Place {
    pub cycle: u8,
    pub state: u8,
}

// What a state shows, but for the data. Cycle, state and kind are the bytes of the trace, and code is what the table has.
#[derive(Clone, Copy, Debug, PartialEq, Eq)]
pub struct Look {
    pub cycle: u8,
    pub state: u8,
    pub code: u8,
    pub kind: u8,
    pub address: u16,
}

// The place of what comes next: cycle 1 and state 1 for a fetch, 2 and 8 for a halt state, 0 and 0 for a stop.
#[tactic(auto, unfolding(crate::specs::Look::place_of))]
fn place_of(p: Position) -> Place
    ensures { result ≡ place_of p }
{
    match p {
        Position::Fetch => Place { cycle: 1, state: 1 },
        Position::Later { cycle, state } => Place { cycle, state },
        Position::Wait { cycle } => Place { cycle, state: 6 },
        Position::Hold { cycle } => Place { cycle, state: 7 },
        Position::Halt => Place { cycle: 2, state: 8 },
        Position::Stop => Place { cycle: 0, state: 0 },
    }
}

// The states in which an address stands.
#[tactic(auto, unfolding(crate::specs::Look::stands_of))]
fn stands(s: u8) -> bool
    ensures { result ≡ stands_of s }
{
    s <= 3 || s == 6
}

// The code of the cycle shown.
#[tactic(auto, unfolding(crate::specs::Look::shown_of))]
fn shown(p: Place, op: u8) -> u8
    ensures { result ≡ shown_of p op }
{
    if p.state == 8 {
        HALTING
    } else {
        code_at(op, p.cycle)
    }
}

impl Machine {
    // PC as it was in T1 of the cycle, in state s of it.
    #[tactic(auto, unfolding(crate::specs::Look::first_pc_of))]
    fn first_pc(self, code: u8, s: u8) -> u16
        ensures { result ≡ first_pc_of code s self.kept self.regs }
    {
        if 2 < s && raises(code, self.kept.ack) {
            down(self.regs.pc, 1)
        } else {
            self.regs.pc
        }
    }

    // What the state at a place shows, whose cycle has this code.
    #[tactic(auto, unfolding(crate::specs::Look::look_at))]
    fn look_at(self, p: Place, code: u8) -> Look
        ensures { result ≡ look_at p code self }
    {
        let Place { cycle, state } = p;
        Look {
            cycle,
            state,
            code,
            kind: kind(code, self.kept.ack),
            address: if stands(state) {
                address(code, self.first_pc(code, state), self.kept, self.regs)
            } else {
                0
            },
        }
    }

    // What the state that comes next shows.
    #[tactic(auto, unfolding(crate::specs::Look::look_of))]
    pub fn look(self) -> Look
        ensures { result ≡ look_of self }
    {
        let p = place_of(self.next);
        self.look_at(p, shown(p, self.kept.opcode))
    }
}
