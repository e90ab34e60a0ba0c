// What stands in an entry of the table. (A plain u64 and no struct, and 0 and no Option where there is no cycle: leaves hands both
// to C; these functions are named in PROMISES.)
ghost use Rattle.std.specs.Prelude.{◌≡◌, ◌<◌, get_or};
ghost use Rattle.opcodes.specs.Entries.{code_in, count_in, defined_in};

// The entry of an opcode.
pub fn entry(t: &[u64; 256], op: u8) -> u64
    ensures { result ≡ get_or t.now op 0 }
{
    t[usize::from(op)]
}

// The code of cycle c, counted from 1; 0 where there is none.
#[tactic(auto, unfolding(crate::specs::Entries::code_in))]
pub fn code(p: u64, c: u8) -> u8
    ensures { result ≡ code_in p c }
{
    match c {
        1..=5 => ((p >> (48 - 8 * c)) % 256) as u8,
        _ => 0,
    }
}

// How many cycles there are, as the condition is met or not.
#[tactic(auto, unfolding(crate::specs::Entries::count_in))]
pub fn count(p: u64, met: bool) -> u8
    ensures { (result ≡ count_in p met) × (result < 16) }
{
    if met {
        (p / 16 % 16) as u8
    } else {
        (p % 16) as u8
    }
}

// Whether Intel defines the opcode.
#[tactic(auto, unfolding(crate::specs::Entries::defined_in))]
pub fn defined(p: u64) -> bool
    ensures { result ≡ defined_in p }
{
    p != 0
}
