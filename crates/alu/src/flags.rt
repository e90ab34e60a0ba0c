// The five flags, the byte that they are kept in, and a byte with the flags of its value. (`bit`, `flag_byte` and `flags_of` are
// functions and no `From`: the pages name them. `bit` is the flag byte's; in sums a carry is a number by `u8::from`.)
ghost use Rattle.std.specs.Prelude.{◌≡◌, ◌<◌};
ghost use Rattle.alu.specs.Flags.{bit_of, parity_of, flag_byte_of, flags_of, result_of, with_cy};

#[derive(Clone, Copy, Debug, PartialEq, Eq)]
pub struct Flags {
    pub s: bool,
    pub z: bool,
    pub ac: bool,
    pub p: bool,
    pub cy: bool,
}

// A byte and the flags after it was made.
#[derive(Clone, Copy, Debug, PartialEq, Eq)]
pub struct Flagged {
    pub value: u8,
    pub flags: Flags,
}

// A flag as a number.
pub fn bit(c: bool) -> u8
    ensures { (result ≡ bit_of c) × (result < 2) }
{
    u8::from(c)
}

// Bit n of row h is the parity of 64 h + n.
static ROWS: [u64; 4] = [
    0x9669_6996_6996_9669,
    0x6996_9669_9669_6996,
    0x6996_9669_9669_6996,
    0x9669_6996_6996_9669,
];

// Whether the number of ones in the byte is even.
#[tactic(auto, using(crate::proofs::Parity::parity_read))]
pub(crate) fn parity(v: u8) -> bool
    ensures { result ≡ parity_of v }
{
    (ROWS[usize::from(v / 64)] >> (v % 64)) % 2 == 1
}

// A byte with the S, Z and P of its value, and the given AC and CY.
#[tactic(auto, unfolding(crate::specs::Flags::result_of))]
pub(crate) fn result(value: u8, ac: bool, cy: bool) -> Flagged
    ensures { result ≡ result_of value ac cy }
{
    Flagged {
        value,
        flags: Flags {
            s: 128 <= value,
            z: value == 0,
            ac,
            p: parity(value),
            cy,
        },
    }
}

// The flags with another CY.
#[tactic(auto, unfolding(crate::specs::Flags::with_cy))]
pub fn with_cy(cy: bool, f: Flags) -> Flags
    ensures { result ≡ with_cy cy f }
{
    Flags { cy, ..f }
}

// The flag byte: S, Z, 0, AC, 0, P, 1, CY.
#[tactic(auto, unfolding(crate::specs::Flags::flag_byte_of))]
pub fn flag_byte(f: Flags) -> u8
    ensures { result ≡ flag_byte_of f }
{
    128 * bit(f.s) + 64 * bit(f.z) + 16 * bit(f.ac) + 4 * bit(f.p) + 2 + bit(f.cy)
}

// The flags in a byte, whatever stands at the fixed bits.
#[tactic(auto, unfolding(crate::specs::Flags::flags_of))]
pub fn flags_of(v: u8) -> Flags
    ensures { result ≡ flags_of v }
{
    Flags {
        s: v / 128 % 2 == 1,
        z: v / 64 % 2 == 1,
        ac: v / 16 % 2 == 1,
        p: v / 4 % 2 == 1,
        cy: v % 2 == 1,
    }
}
