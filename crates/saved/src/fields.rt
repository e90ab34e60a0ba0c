// The machine in a saved form s, of which the first 24 bytes count: 0 A, 1 flags, 2 to 7 B C D E H L, 8 SP, 10 PC, 12 INTE,
// 13 mode, 14 clock, 18 READY, 19 HOLD, 20 INT, 21 to 23 zeros.
ghost use Rattle.std.specs.Prelude.{◌≡◌, get_or};
ghost use Rattle.saved.specs.Fields.{long_at, lines_in, in_range, position_of, registers_in, machine_in};

use effect::kept::kept_for;
use effect::registers::Registers;
use machine::record::{Lines, Machine, Position};
use machine::well::{fixed, levels_listed};
use opcodes::cycle::Acknowledge;

// The byte at i, 0 where s ends before it. (Any slice, and 0 past its end: so `registers_in`, `lines_in` and `clock_in` promise.)
fn byte_at(s: &[u8], i: usize) -> u8
    ensures { result ≡ get_or s.now i 0 }
{
    s.get(i).copied().unwrap_or(0)
}

// The clock.
#[tactic(auto, unfolding(crate::specs::Fields::long_at))]
pub fn clock_in(s: &[u8]) -> u32
    ensures { result ≡ long_at s.now 14 }
{
    u32::from_le_bytes([
        byte_at(s, 14),
        byte_at(s, 15),
        byte_at(s, 16),
        byte_at(s, 17),
    ])
}

// The levels.
#[tactic(auto, unfolding(crate::specs::Fields::lines_in))]
pub fn lines_in(s: &[u8]) -> Lines
    ensures { result ≡ lines_in s.now }
{
    Lines {
        ready: byte_at(s, 18),
        hold: byte_at(s, 19),
        int: byte_at(s, 20),
    }
}

// Whether each field is inside its range.
#[tactic(auto, unfolding(crate::specs::Fields::in_range, crate::specs::Fields::lines_in, machine::specs::Well::levels_listed))]
pub(crate) fn in_range(s: &[u8; 65816]) -> bool
    ensures { result ≡ in_range s.now }
{
    fixed(s[1]) && s[12] <= 1 && s[13] <= 2 && levels_listed(lines_in(s)) && s[21..24] == [0, 0, 0]
}

// What comes next in a mode. (Not one with that of capi: a mode has three values, the record's byte six.)
#[tactic(auto, unfolding(crate::specs::Fields::position_of))]
fn position(mode: u8) -> Position
    ensures { result ≡ position_of mode }
{
    match mode {
        0 => Position::Fetch,
        1 => Position::Halt,
        _ => Position::Stop,
    }
}

// The registers.
#[tactic(auto, unfolding(crate::specs::Fields::registers_in, crate::specs::Fields::word_at))]
pub fn registers_in(s: &[u8]) -> Registers
    ensures { result ≡ registers_in s.now }
{
    Registers {
        a: byte_at(s, 0),
        f: byte_at(s, 1),
        b: byte_at(s, 2),
        c: byte_at(s, 3),
        d: byte_at(s, 4),
        e: byte_at(s, 5),
        h: byte_at(s, 6),
        l: byte_at(s, 7),
        sp: u16::from_le_bytes([byte_at(s, 8), byte_at(s, 9)]),
        pc: u16::from_le_bytes([byte_at(s, 10), byte_at(s, 11)]),
        inte: byte_at(s, 12) == 1,
    }
}

// The machine that the fields say.
#[tactic(auto, unfolding(crate::specs::Fields::machine_in))]
pub(crate) fn machine_in(s: &[u8; 65816]) -> Machine
    ensures { result ≡ machine_in s.now }
{
    Machine {
        regs: registers_in(s),
        kept: kept_for(Acknowledge::None, 0),
        lines: lines_in(s),
        clock: clock_in(s),
        next: position(s[13]),
    }
}
