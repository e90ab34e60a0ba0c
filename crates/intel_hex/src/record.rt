// The record in a line, which is given without its ending.
ghost use Rattle.std.specs.Prelude.{◌≡◌};
ghost use Rattle.intel_hex.specs.declared.record.Line.TheVariants.{Data};
ghost use Rattle.intel_hex.specs.Record.{Readable, fields_of, record_sound, line_formed, line_is};
ghost use Rattle.intel_hex.specs.Read.{landed_of};

use crate::answer::Refusal;
use crate::digits::{all_hex, byte_at, put, sum};

// What a line is that is not faulty.
#[derive(Clone, Copy, Debug, PartialEq, Eq)]
pub enum Line {
    Data,
    End,
}

// The fields in front of the data: how many data bytes the record says it has, where they go, and the type.
#[derive(Clone, Copy)]
pub(crate) struct Fields {
    pub(crate) count: u8,
    pub(crate) address: u16,
    pub(crate) kind: u8,
}

impl Fields {
    // The fields of a line that has them.
    #[tactic(auto, using(crate::proofs::Scan::pair_after))]
    pub(crate) fn of(l: &[u8]) -> Fields
        requires { Readable l.now }
        ensures { result ≡ fields_of l.now }
    {
        Fields {
            count: byte_at(l, 1),
            address: u16::from_be_bytes([byte_at(l, 3), byte_at(l, 5)]),
            kind: byte_at(l, 7),
        }
    }
}

// Whether a record of hex digits is sound: its length, its checksum, and that an end record has no data and address 0.
#[tactic(auto, unfolding(crate::specs::Record::record_sound))]
fn sound(l: &[u8]) -> bool
    requires { Readable l.now }
    ensures { result ≡ record_sound l.now }
{
    let fields = Fields::of(l);
    l.len() == 2 * usize::from(fields.count) + 11
        && sum(&l[1..]) == 0
        && (fields.kind != 1 || fields.count == 0 && fields.address == 0)
}

// Whether the line is formed: a colon, and hex digits that make a sound record. (It returns early on a short one: with all tests
// joined by && a goal stayed open.)
#[tactic(auto, using(crate::proofs::Formed::formed_short), unfolding(crate::specs::Record::line_formed))]
fn formed(l: &[u8]) -> bool
    ensures { result ≡ line_formed l.now }
{
    if l.len() < 11 {
        return false;
    }
    l[0] == b':' && all_hex(&l[1..]) && sound(l)
}

// What a line is, with its faults in the order of their numbers.
#[tactic(auto, using(crate::proofs::Formed::formed_fields), unfolding(crate::specs::Record::line_is))]
pub(crate) fn what(l: &[u8]) -> Result<Line, Refusal>
    ensures { result ≡ line_is l.now }
{
    if !formed(l) {
        return Err(Refusal::Malformed);
    }
    let fields = Fields::of(l);
    match fields.kind {
        0 if usize::from(fields.address) + usize::from(fields.count) <= 65536 => Ok(Line::Data),
        0 => Err(Refusal::PastEnd),
        1 => Ok(Line::End),
        _ => Err(Refusal::OtherType),
    }
}

// The data of a record go into memory at its address; their digits stand before the last two, which are the checksum's.
#[tactic(auto, using(crate::proofs::Landed::landing), unfolding(crate::specs::Read::landed_of))]
pub(crate) fn land(l: &[u8], memory: &mut [u8; 65536])
    requires { line_is l.now ≡ Ok Data }
    ensures { memory.new ≡ landed_of l.now memory.old }
{
    let address = Fields::of(l).address;
    put(&l[9..l.len() - 2], memory, usize::from(address));
}
