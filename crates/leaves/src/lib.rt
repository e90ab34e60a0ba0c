// The arithmetic and the opcode table as C functions on numbers, so that tests and benchmarks call what was proved.
// A byte with its flags comes back as the byte and 256 times the flag byte.
#![tactic(auto)]

ghost use Rattle.std.specs.Prelude.{◌≡◌};
ghost use Rattle.alu.specs.Words.{up_of, down_of};
ghost use Rattle.opcodes.specs.Condition.{met_of};
ghost use Rattle.opcodes.specs.Entries.{entry_of, code_in, count_in, defined_in};
ghost use Rattle.opcodes.specs.Kinds.{status_of, states_of};
ghost use Rattle.leaves.specs.Numbers.{flagged_number, leaf_arithmetic_of, leaf_accumulator_of, leaf_inr_of, leaf_dcr_of, leaf_dad_of, leaf_kind_of};

use alu::flags::Flagged;
use alu::{flags, groups, sums, words};
use opcodes::cycle::Acknowledge;
use opcodes::{condition, cycle, entry, table};

// A byte and its flags as one number.
#[tactic(auto, unfolding(crate::specs::Numbers::flagged_number))]
fn flagged_number(x: Flagged) -> u16
    ensures { result ≡ flagged_number x }
{
    u16::from_le_bytes([x.value, flags::flag_byte(x.flags)])
}

// ADD, ADC, SUB, SBB, ANA, XRA, ORA, CMP for y from 0 to 7; only the CY of the flag byte f counts.
#[tactic(auto, unfolding(crate::specs::Numbers::leaf_arithmetic_of))]
#[unsafe(no_mangle)]
pub extern "C" fn leaf_arithmetic(y: u8, a: u8, b: u8, f: u8) -> u16
    ensures { result ≡ leaf_arithmetic_of y a b f }
{
    flagged_number(groups::arithmetic(y, a, b, flags::flags_of(f).cy))
}

// RLC, RRC, RAL, RAR, DAA, CMA, STC, CMC for y from 0 to 7.
#[tactic(auto, unfolding(crate::specs::Numbers::leaf_accumulator_of))]
#[unsafe(no_mangle)]
pub extern "C" fn leaf_accumulator(y: u8, a: u8, f: u8) -> u16
    ensures { result ≡ leaf_accumulator_of y a f }
{
    flagged_number(groups::accumulator(y, a, flags::flags_of(f)))
}

// INR.
#[tactic(auto, unfolding(crate::specs::Numbers::leaf_inr_of))]
#[unsafe(no_mangle)]
pub extern "C" fn leaf_inr(v: u8, f: u8) -> u16
    ensures { result ≡ leaf_inr_of v f }
{
    flagged_number(sums::inr(v, flags::flags_of(f).cy))
}

// DCR.
#[tactic(auto, unfolding(crate::specs::Numbers::leaf_dcr_of))]
#[unsafe(no_mangle)]
pub extern "C" fn leaf_dcr(v: u8, f: u8) -> u16
    ensures { result ≡ leaf_dcr_of v f }
{
    flagged_number(sums::dcr(v, flags::flags_of(f).cy))
}

// DAD: the sum, and 65,536 times the carry.
#[tactic(auto, unfolding(crate::specs::Numbers::leaf_dad_of))]
#[unsafe(no_mangle)]
pub extern "C" fn leaf_dad(h: u16, x: u16) -> u32
    ensures { result ≡ leaf_dad_of h x }
{
    let sum = words::dad(h, x);
    u32::from(sum.value) + 65536 * u32::from(sum.cy)
}

// x + n modulo 65,536.
#[unsafe(no_mangle)]
pub extern "C" fn leaf_up(x: u16, n: u16) -> u16
    ensures { result ≡ up_of x n }
{
    words::up(x, n)
}

// x - n modulo 65,536.
#[unsafe(no_mangle)]
pub extern "C" fn leaf_down(x: u16, n: u16) -> u16
    ensures { result ≡ down_of x n }
{
    words::down(x, n)
}

// The table's entry of an opcode.
#[tactic(auto, using(opcodes::proofs::Entries::entry_at))]
#[unsafe(no_mangle)]
pub extern "C" fn leaf_entry(op: u8) -> u64
    ensures { result ≡ entry_of op }
{
    entry::entry(table::table(), op)
}

// The code of cycle c of an entry, counted from 1; 0 where there is none.
#[unsafe(no_mangle)]
pub extern "C" fn leaf_code(p: u64, c: u8) -> u8
    ensures { result ≡ code_in p c }
{
    entry::code(p, c)
}

// How many cycles an entry has, as the condition is met or not.
#[unsafe(no_mangle)]
pub extern "C" fn leaf_count(p: u64, met: bool) -> u8
    ensures { result ≡ count_in p met }
{
    entry::count(p, met)
}

// Whether an entry is that of an opcode that Intel defines.
#[unsafe(no_mangle)]
pub extern "C" fn leaf_defined(p: u64) -> bool
    ensures { result ≡ defined_in p }
{
    entry::defined(p)
}

// The kind of a cycle, outside an acknowledge.
#[tactic(auto, unfolding(crate::specs::Numbers::leaf_kind_of))]
#[unsafe(no_mangle)]
pub extern "C" fn leaf_kind(code: u8) -> u8
    ensures { result ≡ leaf_kind_of code }
{
    cycle::kind(code, Acknowledge::None)
}

// The status byte of a kind.
#[unsafe(no_mangle)]
pub extern "C" fn leaf_status(kind: u8) -> u8
    ensures { result ≡ status_of kind }
{
    cycle::status(kind)
}

// How many states a cycle has without waits.
#[unsafe(no_mangle)]
pub extern "C" fn leaf_states(code: u8) -> u8
    ensures { result ≡ states_of code }
{
    cycle::states(code)
}

// Whether the condition that the opcode numbers is met by the flag byte f.
#[unsafe(no_mangle)]
pub extern "C" fn leaf_met(op: u8, f: u8) -> bool
    ensures { result ≡ met_of op f }
{
    condition::met(op, f)
}
