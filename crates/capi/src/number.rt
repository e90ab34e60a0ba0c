// What the C functions answer, as numbers.
ghost use Rattle.std.specs.Prelude.{◌≡◌, ◌≤◌};
ghost use Rattle.run.specs.Answer.{ran_of};
ghost use Rattle.capi.specs.Numbers.{request_number, step_number, run_number, beside_of};

use machine::record::{Machine, stopped};
use machine::request::Request;
use run::answer::{Answer, number};
use run::ran;

// Document 01's numbers that these functions give themselves. (C interface: a C function returns the number itself, so there is
// no enum between.)
pub(crate) const DONE: u8 = 0;

pub(crate) const ILL_FORMED: u8 = 8;

const CLOCK_RANGE: u8 = 9;

const STOPPED: u8 = 10;

// A request: which it is, times 2^24, the byte, times 2^16, and the address or the port.
#[tactic(auto, unfolding(crate::specs::Numbers::request_number))]
pub(crate) fn request_number(q: Request) -> u32
    ensures { result ≡ request_number q }
{
    match q {
        Request::Nothing => 0,
        Request::Read { address } => 0x1000000 + u32::from(address),
        Request::Write { address, byte } => {
            0x2000000 + 0x10000 * u32::from(byte) + u32::from(address)
        }
        Request::Input { port } => 0x3000000 + u32::from(port),
        Request::Output { port, byte } => 0x4000000 + 0x10000 * u32::from(byte) + u32::from(port),
        Request::Restart { byte } => 0x5000000 + 0x10000 * u32::from(byte),
    }
}

// The tests of one state: 8, 9 and 10, as a run of one state has them.
#[tactic(auto, unfolding(crate::specs::Numbers::step_number))]
pub(crate) fn step_number(m: Machine) -> u8
    ensures { result ≡ step_number m }
{
    if !m.well() {
        return ILL_FORMED;
    }
    if m.clock == u32::MAX {
        return CLOCK_RANGE;
    }
    if stopped(m.next) {
        return STOPPED;
    }
    DONE
}

// A number with a count beside it: the number, and 256 times the count, of which 56 bits count.
#[tactic(auto, unfolding(crate::specs::Numbers::beside_of))]
pub(crate) fn beside(number: u8, count: usize) -> u64
    ensures { result ≡ beside_of number count }
{
    u64::from(number) + 256 * (count % 0x100000000000000) as u64
}

// A run's answer: its number, and 256 times the states done.
#[tactic(auto, unfolding(crate::specs::Numbers::run_number, crate::specs::Numbers::beside_of))]
pub(crate) fn run_number(a: Answer) -> u64
    requires { (ran_of a).states ≤ 4294967295 }
    ensures { result ≡ run_number a }
{
    beside(number(a), ran(a).states)
}
