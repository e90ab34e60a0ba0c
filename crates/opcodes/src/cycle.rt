// What a cycle's code says: its kind and status, its states, and what READY and PC do in it.
ghost use Rattle.std.specs.Prelude.{◌≡◌};
ghost use Rattle.opcodes.specs.Kinds.{fetch_kind, writes_of, kind_of, status_of, states_of};
ghost use Rattle.opcodes.specs.Kinds.{waits_of, reads_of, is_none, raises_of};

// How an instruction was come to: fetched, or as the answer to an interrupt that was taken from running or from halt. (No Option:
// three ways, which the definitions and the record of C name; `is_none` is public.)
#[derive(Clone, Copy, Debug, PartialEq, Eq)]
pub enum Acknowledge {
    None,
    Running,
    Halted,
}

// The first digit of a fetch, and the codes that are told apart here.
const FETCH: u8 = 1;

const OPERAND: u8 = 0x20;

const SWAP_L: u8 = 0x7C;

// The halt acknowledge, which a halt state shows too.
pub const HALTING: u8 = 0xC0;

// The kind of a cycle that reads, by the code's first digit.
static KINDS: [u8; 16] = [0, 1, 2, 2, 2, 2, 2, 4, 4, 4, 4, 6, 9, 11, 0, 0];

// The kind of a fetch.
fn fetch_kind(ack: Acknowledge) -> u8
    ensures { result ≡ fetch_kind ack }
{
    match ack {
        Acknowledge::None => 1,
        Acknowledge::Running => 8,
        Acknowledge::Halted => 10,
    }
}

// Whether a byte goes out.
#[tactic(auto, unfolding(crate::specs::Kinds::writes_of))]
pub(crate) fn writes(code: u8) -> bool
    ensures { result ≡ writes_of code }
{
    OPERAND <= code && code < HALTING && code % 16 != 0
}

// The kind of a cycle, 1 to 11; 0 where the code is none. (The trace's number, and no enum: `status` and `request` of machine
// promise an answer for any.)
#[tactic(auto, unfolding(crate::specs::Kinds::kind_of))]
pub fn kind(code: u8, ack: Acknowledge) -> u8
    ensures { result ≡ kind_of code ack }
{
    let digit = code / 16;
    if digit == FETCH {
        return fetch_kind(ack);
    }
    let read = KINDS[usize::from(digit)];
    if writes(code) { read + 1 } else { read }
}

static STATUSES: [u8; 12] = [
    0x00, // 0 no cycle
    0xA2, // 1 instruction fetch
    0x82, // 2 memory read
    0x00, // 3 memory write
    0x86, // 4 stack read
    0x04, // 5 stack write
    0x42, // 6 input
    0x10, // 7 output
    0x23, // 8 interrupt acknowledge
    0x8A, // 9 halt acknowledge
    0x2B, // 10 acknowledge while halted
    0x00, // 11 internal (DAD)
];

// The status byte of a kind.
#[tactic(auto, unfolding(crate::specs::Kinds::status_of))]
pub fn status(kind: u8) -> u8
    ensures { result ≡ status_of kind }
{
    STATUSES.get(usize::from(kind)).copied().unwrap_or(0)
}

// How many states a cycle has without waits.
#[tactic(auto, unfolding(crate::specs::Kinds::states_of))]
pub fn states(code: u8) -> u8
    ensures { result ≡ states_of code }
{
    if code / 16 == FETCH {
        code % 16
    } else if code == SWAP_L {
        5
    } else {
        3
    }
}

// Whether READY counts: in every cycle but the halt acknowledge and the internal one.
#[tactic(auto, using(crate::proofs::Codes::waits_is))]
pub fn waits(code: u8) -> bool
    ensures { result ≡ waits_of code }
{
    16 <= code && code < HALTING
}

// Whether a byte comes in.
#[tactic(auto, using(crate::proofs::Codes::reads_is))]
pub fn reads(code: u8) -> bool
    ensures { result ≡ reads_of code }
{
    code / 16 == FETCH || (OPERAND <= code && code < HALTING && code % 16 == 0)
}

// Whether this is no acknowledge.
pub fn is_none(ack: Acknowledge) -> bool
    ensures { result ≡ is_none ack }
{
    matches!(ack, Acknowledge::None)
}

// Whether PC rises in T2.
#[tactic(auto, unfolding(crate::specs::Kinds::raises_of))]
pub fn raises(code: u8, ack: Acknowledge) -> bool
    ensures { result ≡ raises_of code ack }
{
    code == OPERAND || (code / 16 == FETCH && is_none(ack))
}
