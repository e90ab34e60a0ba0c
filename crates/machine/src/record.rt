// The machine's record, the cold machine, what comes next, and the record with a part changed.
ghost use Rattle.std.specs.Prelude.{◌≡◌};
ghost use Rattle.machine.specs.Record.{cold_of, with_regs, with_lines};
ghost use Rattle.machine.specs.Record.{next_number, stopped_of, ticked_of};

use effect::kept::{Kept, kept_for};
use effect::registers::Registers;
use opcodes::cycle::Acknowledge;

// What comes next; cycles and states count from 1. T1 of the first cycle is Fetch, an acknowledge's too. A record may hold any
// number here, and `well` judges it (document 01, "Numbers returned").
#[derive(Clone, Copy, Debug, PartialEq, Eq)]
pub enum Position {
    Fetch,
    Later { cycle: u8, state: u8 },
    Wait { cycle: u8 },
    Hold { cycle: u8 },
    Halt,
    Stop,
}

// The levels: READY and HOLD 0 down or 1 up, INT 0 to 7 up with that restart number or 8 down. Numbers, as a record may hold any
// and `well` judges it.
#[derive(Clone, Copy, Debug, PartialEq, Eq)]
pub struct Lines {
    pub ready: u8,
    pub hold: u8,
    pub int: u8,
}

// clock is the number of states done.
#[derive(Clone, Copy, Debug, PartialEq, Eq)]
pub struct Machine {
    pub regs: Registers,
    pub kept: Kept,
    pub lines: Lines,
    pub clock: u32,
    pub next: Position,
}

// INT when it is down.
pub(crate) const DOWN: u8 = 8;

// What comes next as a number: 0 fetch, 1 halt state, 2 stop, 3 later state, 4 wait, 5 hold.
pub fn next_number(p: Position) -> u8
    ensures { result ≡ next_number p }
{
    match p {
        Position::Fetch => 0,
        Position::Later { .. } => 3,
        Position::Wait { .. } => 4,
        Position::Hold { .. } => 5,
        Position::Halt => 1,
        Position::Stop => 2,
    }
}

// Nothing comes next.
#[tactic(auto, unfolding(crate::specs::Record::stopped_of))]
pub fn stopped(p: Position) -> bool
    ensures { result ≡ stopped_of p }
{
    matches!(p, Position::Stop)
}

// The clock after one more state: it counts every state, and a stopped machine does none.
#[tactic(auto, unfolding(crate::specs::Record::ticked_of))]
pub(crate) fn ticked(next: Position, clock: u32) -> u32
    ensures { result ≡ ticked_of next clock }
{
    if stopped(next) {
        clock
    } else {
        clock.wrapping_add(1)
    }
}

impl Machine {
    // The machine just switched on, with READY up and no hold or interrupt asked for.
    #[tactic(auto, unfolding(crate::specs::Record::cold_of))]
    pub fn cold() -> Machine
        ensures { result ≡ cold_of }
    {
        Machine {
            regs: Registers {
                a: 0,
                f: 2,
                b: 0,
                c: 0,
                d: 0,
                e: 0,
                h: 0,
                l: 0,
                sp: 0,
                pc: 0,
                inte: false,
            },
            kept: kept_for(Acknowledge::None, 0),
            lines: Lines {
                ready: 1,
                hold: 0,
                int: DOWN,
            },
            clock: 0,
            next: Position::Fetch,
        }
    }

    #[tactic(auto, unfolding(crate::specs::Record::with_regs))]
    pub fn with_regs(self, regs: Registers) -> Machine
        ensures { result ≡ with_regs regs self }
    {
        Machine { regs, ..self }
    }

    // By a struct update the record was copied in each state of a run, which took 24 instructions more.
    #[tactic(auto, unfolding(crate::specs::Record::with_lines))]
    pub fn with_lines(mut self, lines: Lines) -> Machine
        ensures { result ≡ with_lines lines self }
    {
        self.lines = lines;
        self
    }
}
