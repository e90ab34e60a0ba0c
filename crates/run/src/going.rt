// The states of a run whose arguments have passed the tests.
ghost use Rattle.run.specs.Going.{Ready, Went};

use crate::Asked;
use crate::answer::Ran;
use crate::state::state;
use machine::record::stopped;
use schedule::levels::levels_at;

// The states that are asked, or fewer where the machine stops.
pub(crate) fn go(
    asked: Asked,
    memory: &mut [u8; 65536],
    inputs: &[u8; 256],
    outputs: &mut [u8; 256],
    s: &[u8],
    trace: &mut [u8],
) -> Ran
    requires { Ready asked.machine s.now trace.old asked.states }
    ensures { Went asked.machine memory.old inputs.now outputs.old s.now trace.old asked.states result memory.new outputs.new trace.new }
{
    let events = s.len() / 6;
    let mut machine = asked.machine;
    let mut from = 0;
    for states in 0..asked.states {
        if stopped(machine.next) {
            return Ran { machine, states };
        }
        let due = levels_at(s, events, from, machine.clock, machine.lines);
        machine = machine.with_lines(due.lines);
        from = due.at;
        state(&mut machine, memory, inputs, outputs, trace, 8 * states);
    }
    Ran {
        machine,
        states: asked.states,
    }
}
