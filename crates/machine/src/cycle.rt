// The cycle under way, looked up in the opcode table.
ghost use Rattle.std.specs.Prelude.{◌≡◌, ◌<◌};
ghost use Rattle.opcodes.specs.Cycles.{code_of, defined_of};
ghost use Rattle.machine.specs.Cycle.{after_of, cycles_of, cycle_of};

use opcodes::condition::met;
use opcodes::cycle::states;
use opcodes::entry::{code, count, defined, entry};
use opcodes::table::table;

// A cycle: its code, its states, and the number of the cycle after it, 0 after the last. No Option: the rules `follow_of` and
// `end_of` take that number, and theorems of `demands` speak of it (`drop_last` of proofs/Courses).
#[derive(Clone, Copy, Debug, PartialEq, Eq)]
pub struct Cycle {
    pub code: u8,
    pub states: u8,
    pub after: u8,
}

// The number of the cycle after c, of n.
#[tactic(auto, unfolding(crate::specs::Cycle::after_of))]
fn after(n: u8, c: u8) -> u8
    requires { n < 16 }
    ensures { result ≡ after_of n c }
{
    if n <= c { 0 } else { c + 1 }
}

// Whether the opcode is defined.
#[tactic(auto, using(crate::proofs::Looked::defined_looked))]
pub(crate) fn is_defined(op: u8) -> bool
    ensures { result ≡ defined_of op }
{
    defined(entry(table(), op))
}

// The code of cycle c of the opcode.
#[tactic(auto, using(crate::proofs::Looked::code_looked))]
pub(crate) fn code_at(op: u8, c: u8) -> u8
    ensures { result ≡ code_of op c }
{
    code(entry(table(), op), c)
}

// How many cycles the opcode has under the flag byte f.
#[tactic(auto, using(crate::proofs::Looked::count_looked), unfolding(crate::specs::Cycle::cycles_of))]
pub(crate) fn cycles(op: u8, f: u8) -> u8
    ensures { (result ≡ cycles_of op f) × (result < 16) }
{
    count(entry(table(), op), met(op, f))
}

// Cycle c of it.
#[tactic(auto, unfolding(crate::specs::Cycle::cycle_of))]
pub(crate) fn cycle_at(op: u8, f: u8, c: u8) -> Cycle
    ensures { result ≡ cycle_of op f c }
{
    let code = code_at(op, c);
    Cycle {
        code,
        states: states(code),
        after: after(cycles(op, f), c),
    }
}
