// A run: a number of states over lent memory, ports and trace, driven by a schedule.
#![tactic(auto)]

ghost use Rattle.std.specs.Prelude.{◌≡◌};
ghost use Rattle.run.specs.Answer.{ran_of};
ghost use Rattle.run.specs.Outcome.{answered_of, Outcome};

use crate::answer::{Answer, Ran, Refusal};
use crate::check::check;
use crate::going::go;
use machine::record::{Machine, stopped};

pub mod answer;
mod bus;
mod check;
mod going;
mod state;

// What is asked of a run: this machine, and so many states.
#[derive(Clone, Copy, Debug, PartialEq, Eq)]
pub struct Asked {
    pub machine: Machine,
    pub states: usize,
}

// Done, or stopped where nothing comes next.
#[tactic(auto, unfolding(crate::specs::Outcome::answered_of))]
fn answered(ran: Ran) -> Answer
    ensures { result ≡ answered_of ran }
{
    if stopped(ran.machine.next) {
        Answer::Stopped { ran }
    } else {
        Answer::Done { ran }
    }
}

// A refusal: nothing was done.
fn refused(machine: Machine, reason: Refusal) -> Answer
    ensures { result ≡ Answer.Refused reason (record { machine = machine; states = 0 }) }
{
    Answer::Refused {
        reason,
        ran: Ran { machine, states: 0 },
    }
}

// The states that are asked, over 65,536 bytes of memory, 256 input and 256 output ports, the schedule s and a trace of eight
// bytes a state; or a refusal that changes nothing. Not inlined: in a caller's code a state took ten instructions more. (No `?`:
// an `Answer` is no Result.)
#[inline(never)]
pub fn run(
    asked: Asked,
    memory: &mut [u8],
    inputs: &[u8],
    outputs: &mut [u8],
    s: &[u8],
    trace: &mut [u8],
) -> Answer
    ensures { Outcome asked.machine memory.old inputs.now outputs.old s.now trace.old asked.states result memory.new outputs.new trace.new }
{
    let machine = asked.machine;
    let Some(memory) = memory.as_mut_array() else {
        return refused(machine, Refusal::MemorySize);
    };
    let Some(inputs) = inputs.as_array() else {
        return refused(machine, Refusal::PortSize);
    };
    let Some(outputs) = outputs.as_mut_array() else {
        return refused(machine, Refusal::PortSize);
    };
    if let Err(reason) = check(asked, s, trace.len()) {
        return refused(machine, reason);
    }
    answered(go(asked, memory, inputs, outputs, s, trace))
}

// The machine and the states of any answer.
pub fn ran(a: Answer) -> Ran
    ensures { result ≡ ran_of a }
{
    match a {
        Answer::Done { ran } | Answer::Stopped { ran } | Answer::Refused { ran, .. } => ran,
    }
}
