// A machine as the 64 bytes of a record. (Numbers, as docs/RECORD.md has them: C interface.)
ghost use Rattle.std.specs.Prelude.{◌≡◌};
ghost use Rattle.capi.specs.Calls.{record_by};
ghost use Rattle.capi.specs.Flat.{cycle_byte, state_byte, acknowledge_byte, flat_of, record_with};

use effect::kept::Kept;
use machine::record::{Machine, Position, next_number};
use opcodes::cycle::Acknowledge;
use run::answer::Answer;
use saved::header::header_with;

// The cycle that comes next or goes on, 0 where none is named.
#[tactic(auto, unfolding(crate::specs::Flat::cycle_byte))]
fn cycle_byte(p: Position) -> u8
    ensures { result ≡ cycle_byte p }
{
    match p {
        Position::Later { cycle, .. } | Position::Wait { cycle } | Position::Hold { cycle } =>
            cycle,
        _ => 0,
    }
}

// The state that comes next, 0 where none is named.
#[tactic(auto, unfolding(crate::specs::Flat::state_byte))]
fn state_byte(p: Position) -> u8
    ensures { result ≡ state_byte p }
{
    match p {
        Position::Later { state, .. } => state,
        _ => 0,
    }
}

// 0 no acknowledge, 1 from running, 2 from halt.
#[tactic(auto, unfolding(crate::specs::Flat::acknowledge_byte))]
fn acknowledge_byte(ack: Acknowledge) -> u8
    ensures { result ≡ acknowledge_byte ack }
{
    match ack {
        Acknowledge::None => 0,
        Acknowledge::Running => 1,
        Acknowledge::Halted => 2,
    }
}

// The record of a machine.
#[tactic(auto, unfolding(crate::specs::Flat::flat_of, saved::specs::Header::header_with))]
fn flat(m: Machine) -> [u8; 64]
    ensures { result ≡ flat_of m }
{
    let Kept {
        opcode,
        ack,
        rst,
        b1,
        b2,
        b3,
        b4,
    } = m.kept;
    let mut record = [0; 64];
    record[..24].copy_from_slice(&header_with(next_number(m.next), m));
    record[24..33].copy_from_slice(&[
        cycle_byte(m.next),
        state_byte(m.next),
        opcode,
        acknowledge_byte(ack),
        rst,
        b1,
        b2,
        b3,
        b4,
    ]);
    record
}

// The machine goes into a record of 64 bytes; any other stays as it is.
#[tactic(auto, unfolding(crate::specs::Flat::record_with))]
pub(crate) fn record_with(z: &mut [u8], m: Machine)
    ensures { z.new ≡ record_with z.old m }
{
    if let Some(record) = z.as_mut_array() {
        *record = flat(m);
    }
}

// The machine of a run's answer goes into its record; after a refusal the record stays.
pub(crate) fn put_answer(z: &mut [u8], a: Answer)
    ensures { z.new ≡ record_by a z.old }
{
    match a {
        Answer::Done { ran } | Answer::Stopped { ran } => record_with(z, ran.machine),
        Answer::Refused { .. } => {}
    }
}
