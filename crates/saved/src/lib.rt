// Saving a machine that is between instructions into 65,816 bytes, and loading it again.
#![tactic(auto)]

ghost use Rattle.std.specs.Prelude.{◌≡◌};
ghost use Rattle.saved.specs.Outcome.{Saves, Loads};

use crate::answer::{NotLoaded, Refusal};
use crate::fields::{in_range, machine_in};
use crate::header::{header_with, mode};
use machine::record::Machine;

pub mod answer;
pub mod fields;
mod form;
pub mod header;

// The machine, 256 output ports and 65,536 bytes of memory go into an output of 65,816 bytes; or a refusal that changes
// nothing. The tests in their order: 1, 2, 8, 11, 14.
#[tactic(auto, unfolding(crate::specs::Check::save_verdict, crate::specs::Header::between_of, crate::specs::Header::header_of, crate::specs::Header::saved_of))]
pub fn save(m: Machine, memory: &[u8], outputs: &[u8], out: &mut [u8]) -> Result<(), Refusal>
    ensures { Saves m memory.now outputs.now out.old result out.new }
{
    let memory = memory.as_array().ok_or(Refusal::MemorySize)?;
    let outputs = outputs.as_array().ok_or(Refusal::PortSize)?;
    if !m.well() {
        return Err(Refusal::IllFormed);
    }
    let mode = mode(m).ok_or(Refusal::InsideInstruction)?;
    let out = out.as_mut_array().ok_or(Refusal::OutputSize)?;
    form::write(&header_with(mode, m), outputs, memory, out);
    Ok(())
}

// A load is refused.
fn not_loaded(machine: Machine, reason: Refusal) -> NotLoaded
    ensures { result ≡ record { reason = reason; machine = machine } }
{
    NotLoaded { reason, machine }
}

// The machine of a saved form, whose ports and memory fill the buffers; or a refusal that changes nothing and hands back the
// machine m, which is not looked at. The tests in their order: 12, 13, 1, 2. (`let .. else`: with `ok_or(..)?` the goal at the
// last refusal, of the output ports, stayed open.)
#[tactic(auto, unfolding(crate::specs::Check::load_verdict))]
pub fn load(
    m: Machine,
    saved: &[u8],
    memory: &mut [u8],
    outputs: &mut [u8],
) -> Result<Machine, NotLoaded>
    ensures { Loads m saved.now memory.old outputs.old result memory.new outputs.new }
{
    let Some(form) = saved.as_array() else {
        return Err(not_loaded(m, Refusal::SavedSize));
    };
    if !in_range(form) {
        return Err(not_loaded(m, Refusal::FieldRange));
    }
    let Some(memory) = memory.as_mut_array() else {
        return Err(not_loaded(m, Refusal::MemorySize));
    };
    let Some(outputs) = outputs.as_mut_array() else {
        return Err(not_loaded(m, Refusal::PortSize));
    };
    form::read(form, memory, outputs);
    Ok(machine_in(form))
}
