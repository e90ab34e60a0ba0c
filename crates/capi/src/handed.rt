// The machine of a record: 64 bytes, each inside its range. (Numbers, as docs/RECORD.md has them: C interface.)
ghost use Rattle.std.specs.Prelude.{◌≡◌, ◌==◌};
ghost use Rattle.std.specs.List.{list_all};
ghost use Rattle.capi.specs.Handed.{position_in, acknowledge_in, kept_in, recorded_of, place_fits, formed_of, broken_of, handed_of};

use effect::kept::Kept;
use effect::registers::Registers;
use machine::record::{Machine, Position};
use opcodes::cycle::Acknowledge;
use saved::fields::{clock_in, lines_in, registers_in};

// What comes next, by its byte, with this cycle and this state.
#[tactic(auto, unfolding(crate::specs::Handed::position_in))]
fn position(what: u8, cycle: u8, state: u8) -> Position
    ensures { result ≡ position_in what cycle state }
{
    match what {
        0 => Position::Fetch,
        1 => Position::Halt,
        2 => Position::Stop,
        3 => Position::Later { cycle, state },
        4 => Position::Wait { cycle },
        _ => Position::Hold { cycle },
    }
}

// The acknowledge by its byte.
#[tactic(auto, unfolding(crate::specs::Handed::acknowledge_in))]
fn acknowledge(n: u8) -> Acknowledge
    ensures { result ≡ acknowledge_in n }
{
    match n {
        0 => Acknowledge::None,
        1 => Acknowledge::Running,
        _ => Acknowledge::Halted,
    }
}

// What is kept inside an instruction.
#[tactic(auto, unfolding(crate::specs::Handed::kept_in))]
fn kept(z: &[u8; 64]) -> Kept
    ensures { result ≡ kept_in z.now }
{
    Kept {
        opcode: z[26],
        ack: acknowledge(z[27]),
        rst: z[28],
        b1: z[29],
        b2: z[30],
        b3: z[31],
        b4: z[32],
    }
}

// The machine that the bytes say.
#[tactic(auto, unfolding(crate::specs::Handed::recorded_of))]
fn recorded(z: &[u8; 64]) -> Machine
    ensures { result ≡ recorded_of z.now }
{
    Machine {
        regs: registers_in(z),
        kept: kept(z),
        lines: lines_in(z),
        clock: clock_in(z),
        next: position(z[13], z[24], z[25]),
    }
}

// Whether the bytes are zeros.
fn zeros(s: &[u8]) -> bool
    ensures { result ≡ list_all (λ x. x == 0) s.now }
{
    s.iter().all(|x| *x == 0)
}

// A cycle c and a state s are named only where what comes next has them.
#[tactic(auto, unfolding(crate::specs::Handed::place_fits))]
fn place_fits(what: u8, c: u8, s: u8) -> bool
    ensures { result ≡ place_fits what c s }
{
    (3 <= what || c == 0) && (what == 3 || s == 0)
}

// Whether each byte of the record is inside its range. (`&`, as the search passes its limits at the branches of `&&`.)
#[tactic(auto, using(crate::proofs::Zeros::formed_is))]
fn formed(z: &[u8; 64]) -> bool
    ensures { result ≡ formed_of z.now }
{
    (z[12] <= 1)
        & (z[13] <= 5)
        & (z[27] <= 2)
        & place_fits(z[13], z[24], z[25])
        & zeros(&z[21..24])
        & zeros(&z[33..])
}

// A machine that is ill formed: its flag byte has a wrong fixed bit.
#[tactic(auto, unfolding(crate::specs::Handed::broken_of, machine::specs::Record::cold_of))]
fn broken() -> Machine
    ensures { result ≡ broken_of }
{
    let m = Machine::cold();
    m.with_regs(Registers { f: 0, ..m.regs })
}

// The machine of a record, and one that is ill formed where the record is malformed.
#[tactic(auto, unfolding(crate::specs::Handed::handed_of))]
pub(crate) fn handed(z: &[u8]) -> Machine
    ensures { result ≡ handed_of z.now }
{
    match z.as_array() {
        Some(record) if formed(record) => recorded(record),
        _ => broken(),
    }
}
