// What is kept inside an instruction.
ghost use Rattle.std.specs.Prelude.{◌≡◌};
ghost use Rattle.effect.specs.Kept.{wz_of, keep_of, kept_for};

use crate::registers::word;
use opcodes::cycle::Acknowledge;

// The opcode, whether it is an acknowledge and with which restart number, and the bytes read by cycles 2 to 5, in order.
// What is not read yet is 0.
#[derive(Clone, Copy, Debug, PartialEq, Eq)]
pub struct Kept {
    pub opcode: u8,
    pub ack: Acknowledge,
    pub rst: u8,
    pub b1: u8,
    pub b2: u8,
    pub b3: u8,
    pub b4: u8,
}

impl Kept {
    // WZ, the address that was read, low byte first.
    #[tactic(auto, unfolding(crate::specs::Kept::wz_of))]
    pub(crate) fn wz(self) -> u16
        ensures { result ≡ wz_of self }
    {
        word(self.b2, self.b1)
    }
}

// Nothing read, in an acknowledge of restart n or in none.
#[tactic(auto, unfolding(crate::specs::Kept::kept_for))]
pub fn kept_for(ack: Acknowledge, n: u8) -> Kept
    ensures { result ≡ kept_for ack n }
{
    Kept {
        opcode: 0,
        ack,
        rst: n,
        b1: 0,
        b2: 0,
        b3: 0,
        b4: 0,
    }
}

// The byte v, read in cycle c, is kept.
#[tactic(auto, unfolding(crate::specs::Kept::keep_of))]
pub fn keep(c: u8, v: u8, k: Kept) -> Kept
    ensures { result ≡ keep_of c v k }
{
    match c {
        1 => Kept { opcode: v, ..k },
        2 => Kept { b1: v, ..k },
        3 => Kept { b2: v, ..k },
        4 => Kept { b3: v, ..k },
        5 => Kept { b4: v, ..k },
        _ => k,
    }
}
