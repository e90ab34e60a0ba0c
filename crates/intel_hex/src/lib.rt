// Intel HEX: the records of a text put into memory, and a range of memory as a text.
#![tactic(auto)]

ghost use Rattle.intel_hex.specs.Outcome.{Reads, Writes};

use crate::answer::{Fault, Refusal};
use text::Text;

pub mod answer;
mod digits;
mod input;
mod lines;
mod output;
mod record;

// The text's records of types 00 and 01 go into 65,536 bytes of memory; or a refusal that changes nothing.
#[tactic(auto, unfolding(crate::specs::Read::reading_of))]
pub fn read(text: &[u8], memory: &mut [u8]) -> Result<(), Fault>
    ensures { Reads text.now memory.old result memory.new }
{
    let memory = memory.as_mut_array().ok_or(Refusal::MemorySize.at(0))?;
    input::judge(text)?;
    input::land(text, memory);
    Ok(())
}

// The length bytes of 65,536 bytes of memory from start on go into the output as a text; or a refusal that changes nothing.
// The text has two characters a byte, 13 for each 16 bytes begun, and 13 for the end record.
#[tactic(auto, using(crate::proofs::Writes::no_memory, crate::proofs::Writes::no_room), unfolding(crate::specs::Write::length_for))]
pub fn write(memory: &[u8], start: usize, length: usize, out: &mut [u8]) -> Result<usize, Refusal>
    ensures { Writes memory.now start length out.old result out.new }
{
    let memory = memory.as_array::<65536>().ok_or(Refusal::MemorySize)?;
    let end = start.saturating_add(length);
    let range = memory.get(start..end).ok_or(Refusal::PastEnd)?;
    let size = 2 * length + 13 * length.div_ceil(16) + 13;
    if out.len() < size {
        return Err(Refusal::OutputSize);
    }
    let mut text = Text { out, at: 0 };
    output::records(&mut text, start, range);
    output::record(&mut text, 1, 0, &[]);
    Ok(size)
}
