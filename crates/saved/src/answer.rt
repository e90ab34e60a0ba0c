// What saving and loading answer.
ghost use Rattle.std.specs.Prelude.{◌≡◌};
ghost use Rattle.saved.specs.Answer.{refusal_number, saving_number, loading_number};

use machine::record::Machine;

// Why a machine is not saved or not loaded.
#[derive(Clone, Copy, Debug, PartialEq, Eq)]
pub enum Refusal {
    MemorySize,
    PortSize,
    IllFormed,
    InsideInstruction,
    SavedSize,
    FieldRange,
    OutputSize,
}

// A load that is refused hands back the machine that was handed in.
#[derive(Clone, Copy, Debug, PartialEq, Eq)]
pub struct NotLoaded {
    pub reason: Refusal,
    pub machine: Machine,
}

// The paper's number of a refusal.
impl From<Refusal> for u8 {
    ghost from_gives = { λ reason n. n ≡ refusal_number reason };

    fn from(reason: Refusal) -> u8 {
        match reason {
            Refusal::MemorySize => 1,
            Refusal::PortSize => 2,
            Refusal::IllFormed => 8,
            Refusal::InsideInstruction => 11,
            Refusal::SavedSize => 12,
            Refusal::FieldRange => 13,
            Refusal::OutputSize => 14,
        }
    }
}

// The paper's number of saving's answer.
pub fn saving_number(a: Result<(), Refusal>) -> u8
    ensures { result ≡ saving_number a }
{
    match a {
        Ok(()) => 0,
        Err(reason) => u8::from(reason),
    }
}

// The paper's number of loading's answer. (Two matches of one shape: both names are public, and the pages name them.)
pub fn loading_number(a: Result<Machine, NotLoaded>) -> u8
    ensures { result ≡ loading_number a }
{
    match a {
        Ok(_) => 0,
        Err(refused) => u8::from(refused.reason),
    }
}
