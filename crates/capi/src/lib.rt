// The simulator as C functions on numbers and bytes. A machine is a record of 64 bytes (docs/RECORD.md); what the functions
// return is document 01's number.
#![tactic(auto)]

ghost use Rattle.std.specs.Prelude.{◌≡◌};
ghost use Rattle.machine.specs.Well.{well_of};
ghost use Rattle.capi.specs.Handed.{handed_of};
ghost use Rattle.capi.specs.Calls.{request_call, ColdCall, StepCall, RunCall, SaveCall, LoadCall, HexReadCall, HexWriteCall};

use crate::flat::{put_answer, record_with};
use crate::handed::handed;
use crate::number::{DONE, ILL_FORMED, beside, request_number, run_number, step_number};
use intel_hex::answer::{reading_line, reading_number, writing_length, writing_number};
use machine::record::Machine;
use run::Asked;
use saved::answer::{loading_number, saving_number};

mod flat;
mod handed;
mod number;

// The cold machine: 0, or 8 where z is no record.
#[unsafe(no_mangle)]
pub extern "C" fn fez_cold(z: &mut [u8]) -> u8
    ensures { ColdCall z.old result z.new }
{
    record_with(z, Machine::cold());
    if z.len() == 64 { DONE } else { ILL_FORMED }
}

// Whether the record is well formed.
#[unsafe(no_mangle)]
pub extern "C" fn fez_well(z: &[u8]) -> bool
    ensures { result ≡ well_of (handed_of z.now) }
{
    handed(z).well()
}

// What the state that comes next asks of the bus.
#[tactic(auto, unfolding(crate::specs::Calls::request_call))]
#[unsafe(no_mangle)]
pub extern "C" fn fez_request(z: &[u8]) -> u32
    ensures { result ≡ request_call z.now }
{
    let m = handed(z);
    request_number(m.request(m.look()))
}

// One state with the byte v on the bus: 0, or 8, 9 or 10, tested in that order, and nothing changed.
#[unsafe(no_mangle)]
pub extern "C" fn fez_step(z: &mut [u8], v: u8) -> u8
    ensures { StepCall z.old v result z.new }
{
    let m = handed(z);
    let number = step_number(m);
    if number == DONE {
        record_with(z, m.step(v));
    }
    number
}

// n states over 65,536 bytes of memory, 256 input and 256 output ports, the schedule s and a trace of eight bytes a state: the
// number, and 256 times the states done. A refusal changes nothing.
#[unsafe(no_mangle)]
pub extern "C" fn fez_run(
    z: &mut [u8],
    n: u32,
    memory: &mut [u8],
    inputs: &[u8],
    outputs: &mut [u8],
    s: &[u8],
    trace: &mut [u8],
) -> u64
    ensures { RunCall z.old n memory.old inputs.now outputs.old s.now trace.old result z.new memory.new outputs.new trace.new }
{
    let asked = Asked {
        machine: handed(z),
        states: n as usize,
    };
    let answer = run::run(asked, memory, inputs, outputs, s, trace);
    put_answer(z, answer);
    run_number(answer)
}

// The machine, 256 output ports and 65,536 bytes of memory go into an output of 65,816 bytes: 0, or a refusal that changes
// nothing.
#[unsafe(no_mangle)]
pub extern "C" fn fez_save(z: &[u8], memory: &[u8], outputs: &[u8], out: &mut [u8]) -> u8
    ensures { SaveCall z.now memory.now outputs.now out.old result out.new }
{
    saving_number(saved::save(handed(z), memory, outputs, out))
}

// The machine, the output ports and the memory of the saved form s: 0, or a refusal that changes nothing. What the record held
// is not judged, so `load` is handed any machine.
#[tactic(auto, unfolding(crate::specs::Calls::load_call_verdict, crate::specs::Flat::record_with))]
#[unsafe(no_mangle)]
pub extern "C" fn fez_load(z: &mut [u8], s: &[u8], memory: &mut [u8], outputs: &mut [u8]) -> u8
    ensures { LoadCall z.old s.now memory.old outputs.old result z.new memory.new outputs.new }
{
    if z.len() != 64 {
        return ILL_FORMED;
    }
    let loading = saved::load(Machine::cold(), s, memory, outputs);
    if let Ok(m) = loading {
        record_with(z, m);
    }
    loading_number(loading)
}

// The records of an Intel HEX text go into 65,536 bytes of memory: 0, or a refusal that changes nothing; and 256 times the line
// at fault, 0 where no line is.
#[unsafe(no_mangle)]
pub extern "C" fn fez_hex_read(text: &[u8], memory: &mut [u8]) -> u64
    ensures { HexReadCall text.now memory.old result memory.new }
{
    let answer = intel_hex::read(text, memory);
    beside(reading_number(answer), reading_line(answer))
}

// The length bytes of memory from start on go into the output as an Intel HEX text: 0, or a refusal that changes nothing; and
// 256 times the characters written.
#[unsafe(no_mangle)]
pub extern "C" fn fez_hex_write(memory: &[u8], start: usize, length: usize, out: &mut [u8]) -> u64
    ensures { HexWriteCall memory.now start length out.old result out.new }
{
    let answer = intel_hex::write(memory, start, length, out);
    beside(writing_number(answer), writing_length(answer))
}
