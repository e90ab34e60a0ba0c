// What reading and writing answer.
ghost use Rattle.std.specs.Prelude.{◌≡◌};
ghost use Rattle.intel_hex.specs.Answer.{fault_at, refusal_number, reading_number, reading_line, writing_number, writing_length};

// Why a text is not read or a range not written.
#[derive(Clone, Copy, Debug, PartialEq, Eq)]
pub enum Refusal {
    MemorySize,
    Malformed,
    OtherType,
    PastEnd,
    NoEnd,
    OutputSize,
}

// Why a text is not read, and the line at fault, which counts from 1, and is 0 where no line is. (A number and no Option: the
// paper's and C's number, as `reading_line` promises.)
#[derive(Clone, Copy, Debug, PartialEq, Eq)]
pub struct Fault {
    pub reason: Refusal,
    pub line: usize,
}

impl Refusal {
    // The refusal at a line.
    pub(crate) fn at(self, line: usize) -> Fault
        ensures { result ≡ fault_at self line }
    {
        Fault { reason: self, line }
    }
}

// The paper's number of a refusal.
impl From<Refusal> for u8 {
    ghost from_gives = { λ reason n. n ≡ refusal_number reason };

    fn from(reason: Refusal) -> u8 {
        match reason {
            Refusal::MemorySize => 1,
            Refusal::Malformed => 15,
            Refusal::OtherType => 16,
            Refusal::PastEnd => 17,
            Refusal::NoEnd => 18,
            Refusal::OutputSize => 19,
        }
    }
}

// The paper's number of reading's answer.
pub fn reading_number(a: Result<(), Fault>) -> u8
    ensures { result ≡ reading_number a }
{
    match a {
        Ok(()) => 0,
        Err(fault) => u8::from(fault.reason),
    }
}

// The line at fault, 0 where no line is.
pub fn reading_line(a: Result<(), Fault>) -> usize
    ensures { result ≡ reading_line a }
{
    match a {
        Ok(()) => 0,
        Err(fault) => fault.line,
    }
}

// The paper's number of writing's answer. (Two matches of one shape, with `reading_number`: both names are public, and the pages
// name them.)
pub fn writing_number(a: Result<usize, Refusal>) -> u8
    ensures { result ≡ writing_number a }
{
    match a {
        Ok(_) => 0,
        Err(reason) => u8::from(reason),
    }
}

// How many characters were written, 0 after a refusal.
pub fn writing_length(a: Result<usize, Refusal>) -> usize
    ensures { result ≡ writing_length a }
{
    a.unwrap_or(0)
}
