// What a run answers.
ghost use Rattle.std.specs.Prelude.{◌≡◌};
ghost use Rattle.run.specs.Answer.{refusal_of, refusal_number, number_of};

use machine::record::Machine;
use schedule::order::Fault;

// Why a run is refused, in the order of the tests.
#[derive(Clone, Copy, Debug, PartialEq, Eq)]
pub enum Refusal {
    MemorySize,
    PortSize,
    ScheduleLength,
    EventValue,
    EventOrder,
    TooManyStates,
    TraceShort,
    IllFormed,
    ClockRange,
}

impl From<Fault> for Refusal {
    ghost from_gives = { λ fault reason. reason ≡ refusal_of fault };

    fn from(fault: Fault) -> Refusal {
        match fault {
            Fault::Length => Refusal::ScheduleLength,
            Fault::Value => Refusal::EventValue,
            Fault::Order => Refusal::EventOrder,
        }
    }
}

// The paper's number of a refusal.
impl From<Refusal> for u8 {
    ghost from_gives = { λ reason n. n ≡ refusal_number reason };

    fn from(reason: Refusal) -> u8 {
        match reason {
            Refusal::MemorySize => 1,
            Refusal::PortSize => 2,
            Refusal::ScheduleLength => 3,
            Refusal::EventValue => 4,
            Refusal::EventOrder => 5,
            Refusal::TooManyStates => 6,
            Refusal::TraceShort => 7,
            Refusal::IllFormed => 8,
            Refusal::ClockRange => 9,
        }
    }
}

// The machine after a run, and the states that were done.
#[derive(Clone, Copy, Debug, PartialEq, Eq)]
pub struct Ran {
    pub machine: Machine,
    pub states: usize,
}

// Done: all states that were asked. Stopped: an undefined opcode was fetched, in this run or before. Refused: nothing was
// done, and the machine is as it came.
// No Result: two of the three outcomes are no error, and the theorems of `demands` name all three.
#[derive(Clone, Copy, Debug, PartialEq, Eq)]
pub enum Answer {
    Done { ran: Ran },
    Stopped { ran: Ran },
    Refused { reason: Refusal, ran: Ran },
}

// The paper's number of an answer.
pub fn number(a: Answer) -> u8
    ensures { result ≡ number_of a }
{
    match a {
        Answer::Done { .. } => 0,
        Answer::Stopped { .. } => 10,
        Answer::Refused { reason, .. } => u8::from(reason),
    }
}
