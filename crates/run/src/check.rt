// The tests of a run's arguments.
ghost use Rattle.std.specs.Prelude.{◌≡◌};
ghost use Rattle.run.specs.Check.{schedule_verdict, states_verdict, and_then};

use crate::Asked;
use crate::answer::Refusal;

// The tests 6 to 9, with a trace of l bytes.
#[tactic(auto, unfolding(crate::specs::Check::states_verdict))]
fn states_verdict(asked: Asked, l: usize) -> Result<(), Refusal>
    ensures { result ≡ states_verdict asked.machine l asked.states }
{
    let Asked { machine, states } = asked;
    if 8192 < states {
        return Err(Refusal::TooManyStates);
    }
    if l < 8 * states {
        return Err(Refusal::TraceShort);
    }
    if !machine.well() {
        return Err(Refusal::IllFormed);
    }
    if u32::MAX - machine.clock < states as u32 {
        return Err(Refusal::ClockRange);
    }
    Ok(())
}

// The tests 3 to 9, in that order: of the schedule s, a trace of l bytes and what is asked.
#[tactic(auto, unfolding(crate::specs::Check::schedule_verdict))]
pub(crate) fn check(asked: Asked, s: &[u8], l: usize) -> Result<(), Refusal>
    ensures { result ≡ and_then (schedule_verdict s.now) (states_verdict asked.machine l asked.states) }
{
    schedule::order::check(s)?;
    states_verdict(asked, l)
}
