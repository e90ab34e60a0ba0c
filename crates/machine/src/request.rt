// What a state asks of the bus.
ghost use Rattle.std.specs.Prelude.{◌≡◌};
ghost use Rattle.effect.specs.Bus.{given_of};
ghost use Rattle.machine.specs.Request.{restart_of, asked_of, request_of};

use crate::look::Look;
use crate::record::Machine;
use effect::bus::given;
use effect::kept::Kept;

// What a state asks of the bus. Restart is the byte that the interrupting device puts there. (No Option round it: Nothing is an
// answer like the others, and C's number 0.)
#[derive(Clone, Copy, Debug, PartialEq, Eq)]
pub enum Request {
    Nothing,
    Read { address: u16 },
    Write { address: u16, byte: u8 },
    Input { port: u8 },
    Output { port: u8, byte: u8 },
    Restart { byte: u8 },
}

// The byte that answers an acknowledge: RST of the number taken.
#[tactic(auto, unfolding(crate::specs::Request::restart_of))]
pub(crate) fn restart(k: Kept) -> u8
    ensures { result ≡ restart_of k }
{
    0xC7 + 8 * (k.rst % 8)
}

impl Machine {
    // What T3 of the cycle shown asks of the bus.
    #[tactic(auto, unfolding(crate::specs::Request::asked_of))]
    fn asked(self, y: Look) -> Request
        ensures { result ≡ asked_of y.kind y.address (given_of y.code self.kept self.regs) self.kept }
    {
        match y.kind {
            1 | 2 | 4 => Request::Read { address: y.address },
            3 | 5 => Request::Write {
                address: y.address,
                byte: given(y.code, self.kept, self.regs),
            },
            6 => Request::Input { port: self.kept.b1 },
            7 => Request::Output {
                port: self.kept.b1,
                byte: given(y.code, self.kept, self.regs),
            },
            8 | 10 => Request::Restart {
                byte: restart(self.kept),
            },
            _ => Request::Nothing,
        }
    }

    // What the state asks of the bus.
    #[tactic(auto, unfolding(crate::specs::Request::request_of))]
    pub fn request(self, y: Look) -> Request
        ensures { result ≡ request_of y self }
    {
        if y.state == 3 {
            self.asked(y)
        } else {
            Request::Nothing
        }
    }
}
