// The conditions of jumps, calls and returns.
ghost use Rattle.std.specs.Prelude.{◌≡◌};
ghost use Rattle.opcodes.specs.Condition.{met_of};

// The bit of the flag byte that each pair of conditions looks at: Z, CY, P, S.
static BITS: [u8; 4] = [6, 0, 2, 7];

// Whether the condition that the opcode numbers is met by the flag byte f.
#[tactic(auto, unfolding(crate::specs::Condition::met_of))]
pub fn met(op: u8, f: u8) -> bool
    ensures { result ≡ met_of op f }
{
    let bit = BITS[usize::from(op / 16 % 4)];
    (f >> bit) % 2 == op / 8 % 2
}
