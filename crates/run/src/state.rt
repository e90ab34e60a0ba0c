// One state over lent memory, ports and trace.
ghost use Rattle.std.specs.Prelude.{◌≡◌, ◌+◌, ◌≤◌, length};
ghost use Rattle.run.specs.State.{put_row, After};

use crate::bus::serve;
use machine::record::Machine;
use machine::row::Row;

// The eight bytes of a row, from a place of the trace on.
// No rows by `as_chunks_mut`: its contract says nothing of what the slice ends as, so `trace.new` stayed open.
#[tactic(auto, unfolding(crate::specs::State::put_row))]
fn put_row(trace: &mut [u8], at: usize, r: Row)
    requires { at + 8 ≤ length trace.old }
    ensures { trace.new ≡ put_row trace.old at r }
{
    trace[at] = r.state;
    trace[at + 1] = r.kind;
    trace[at + 2] = r.low;
    trace[at + 3] = r.high;
    trace[at + 4] = r.byte;
    trace[at + 5] = r.status;
    trace[at + 6] = r.cycle;
    trace[at + 7] = r.levels;
}

// One state of the machine: the byte on the bus, the row, the step.
// No struct lends memory and ports as one: `serve`, `state` and `go` would each say of its two references that they stay the
// same, and of the inputs, eight clauses more for six parameters fewer.
pub(crate) fn state(
    machine: &mut Machine,
    memory: &mut [u8; 65536],
    inputs: &[u8; 256],
    outputs: &mut [u8; 256],
    trace: &mut [u8],
    at: usize,
)
    requires { at + 8 ≤ length trace.old }
    ensures { After machine.old memory.old inputs.now outputs.old trace.old at machine.new memory.new outputs.new trace.new }
{
    let look = machine.look();
    let request = machine.request(look);
    let byte = serve(request, memory, inputs, outputs);
    put_row(trace, at, machine.row(look, byte));
    machine.advance(byte);
}
