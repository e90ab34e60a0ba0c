// What touches A and CY alone: the rotates, and a byte with another CY.
ghost use Rattle.std.specs.Prelude.{◌≡◌, ◌+◌, ◌*◌, ◌/◌, ◌%◌, ◌<◌};
ghost use Rattle.alu.specs.Accumulator.{rotated, bit7, bit0};

use crate::flags::{Flagged, Flags, with_cy};

// A byte, with the flags from before but for CY.
pub(crate) fn with_carry(value: u8, cy: bool, f: Flags) -> Flagged
    ensures { result ≡ rotated value cy f }
{
    Flagged {
        value,
        flags: with_cy(cy, f),
    }
}

// A rotate to the left: `low` comes in as bit 0, bit 7 goes into CY.
pub(crate) fn left(a: u8, low: u8, f: Flags) -> Flagged
    requires { low < 2 }
    ensures { result ≡ rotated (a % 128 * 2 + low) (bit7 a) f }
{
    with_carry(a % 128 * 2 + low, 128 <= a, f)
}

// A rotate to the right: `high` comes in as bit 7, bit 0 goes into CY.
pub(crate) fn right(a: u8, high: u8, f: Flags) -> Flagged
    requires { high < 2 }
    ensures { result ≡ rotated (a / 2 + high * 128) (bit0 a) f }
{
    with_carry(a / 2 + high * 128, a % 2 == 1, f)
}
