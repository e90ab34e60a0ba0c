// Many runs in one C function, so that tests and benchmarks call what was proved.
#![tactic(auto)]

ghost use Rattle.rounds.specs.Rounds.{Rounded};

use machine::record::Machine;
use run::{Asked, ran};

// So many calls of `run` from a cold machine, each with so many states and the machine of the answer before: the states done
// in all. A refused call does none; memory, outputs and trace are lent on, so each call writes its trace over the last one's.
#[unsafe(no_mangle)]
pub extern "C" fn rounds(
    calls: u32,
    states: u32,
    memory: &mut [u8],
    inputs: &[u8],
    outputs: &mut [u8],
    s: &[u8],
    trace: &mut [u8],
) -> u64
    ensures { Rounded calls states memory.old inputs.now outputs.old s.now trace.old result memory.new outputs.new trace.new }
{
    let states = states as usize;
    let mut machine = Machine::cold();
    let mut done: u64 = 0;
    for _ in 0..calls {
        let asked = Asked { machine, states };
        let after = ran(run::run(asked, memory, inputs, outputs, s, trace));
        machine = after.machine;
        done = done.wrapping_add(after.states as u64);
    }
    done
}
