// Which records are well formed.
ghost use Rattle.std.specs.Prelude.{◌≡◌};
ghost use Rattle.machine.specs.Cycle.{cycles_of};
ghost use Rattle.machine.specs.Well.{fixed_of, levels_listed, one_of, is_state, there_of, cycles_done, idle_of, acked_of};
ghost use Rattle.machine.specs.Well.{zero_or_read, bytes_of, well_of};

use crate::cycle::{code_at, cycles, is_defined};
use crate::record::{DOWN, Lines, Machine, Position};
use crate::request::restart;
use opcodes::cycle::{is_none, reads, states, waits};

// The flag byte's fixed bits.
#[tactic(auto, unfolding(crate::specs::Well::fixed_of))]
pub fn fixed(f: u8) -> bool
    ensures { result ≡ fixed_of f }
{
    f / 32 % 2 == 0 && f / 8 % 2 == 0 && f / 2 % 2 == 1
}

// The values that lines may have.
#[tactic(auto, unfolding(crate::specs::Well::levels_listed))]
pub fn levels_listed(l: Lines) -> bool
    ensures { result ≡ levels_listed l }
{
    l.ready <= 1 && l.hold <= 1 && l.int <= DOWN
}

// Cycle c is one of n.
#[tactic(auto, unfolding(crate::specs::Well::one_of))]
fn one_of(n: u8, c: u8) -> bool
    ensures { result ≡ one_of n c }
{
    1 <= c && c <= n
}

// State s of cycle c is one of its n states, and not the first of all.
#[tactic(auto, unfolding(crate::specs::Well::is_state))]
fn is_state(n: u8, c: u8, s: u8) -> bool
    ensures { result ≡ is_state n c s }
{
    1 <= s && s <= n && !(c == 1 && s == 1)
}

// How many cycles have read what they read.
#[tactic(auto, unfolding(crate::specs::Well::cycles_done))]
fn cycles_done(p: Position) -> u8
    ensures { result ≡ cycles_done p }
{
    match p {
        Position::Later {
            cycle: c,
            state: ..=3,
        }
        | Position::Wait { cycle: c } => c.saturating_sub(1),
        Position::Later { cycle: c, .. } | Position::Hold { cycle: c } => c,
        Position::Fetch | Position::Halt | Position::Stop => 0,
    }
}

// A halt state or a stop is next.
#[tactic(auto, unfolding(crate::specs::Well::idle_of))]
fn idle(p: Position) -> bool
    ensures { result ≡ idle_of p }
{
    matches!(p, Position::Halt | Position::Stop)
}

// The byte b of cycle c is 0 or was read, d cycles having read.
#[tactic(auto, unfolding(crate::specs::Well::zero_or_read))]
fn zero_or_read(op: u8, d: u8, c: u8, b: u8) -> bool
    ensures { result ≡ zero_or_read op d c b }
{
    b == 0 || (c <= d && reads(code_at(op, c)))
}

impl Machine {
    // What comes next is there, for the opcode's cycles under the present flags.
    #[tactic(auto, unfolding(crate::specs::Well::there_of))]
    fn there(self) -> bool
        ensures { result ≡ there_of self.kept.opcode (cycles_of self.kept.opcode self.regs.f) self.next }
    {
        let op = self.kept.opcode;
        let n = cycles(op, self.regs.f);
        match self.next {
            Position::Fetch | Position::Halt | Position::Stop => true,
            Position::Later { cycle, state } => {
                one_of(n, cycle) && is_state(states(code_at(op, cycle)), cycle, state)
            }
            Position::Wait { cycle } => one_of(n, cycle) && waits(code_at(op, cycle)),
            Position::Hold { cycle } => one_of(n, cycle),
        }
    }

    // The acknowledge and its number.
    #[tactic(auto, unfolding(crate::specs::Well::acked_of))]
    fn acked(self) -> bool
        ensures { result ≡ acked_of self.kept self.next }
    {
        let none = is_none(self.kept.ack);
        (none || cycles_done(self.next) == 0 || self.kept.opcode == restart(self.kept))
            && self.kept.rst <= 7
            && (!none || self.kept.rst == 0)
            && (none || !idle(self.next))
    }

    // Each kept byte is 0 or was read.
    #[tactic(auto, unfolding(crate::specs::Well::bytes_of))]
    fn bytes(self) -> bool
        ensures { result ≡ bytes_of self.kept (cycles_done self.next) }
    {
        let op = self.kept.opcode;
        let d = cycles_done(self.next);
        (op == 0 || 1 <= d)
            && zero_or_read(op, d, 2, self.kept.b1)
            && zero_or_read(op, d, 3, self.kept.b2)
            && zero_or_read(op, d, 4, self.kept.b3)
            && zero_or_read(op, d, 5, self.kept.b4)
    }

    // Whether the record is well formed.
    #[tactic(auto, unfolding(crate::specs::Well::well_of))]
    pub fn well(self) -> bool
        ensures { result ≡ well_of self }
    {
        fixed(self.regs.f)
            && levels_listed(self.lines)
            && is_defined(self.kept.opcode)
            && self.there()
            && self.acked()
            && self.bytes()
    }
}
