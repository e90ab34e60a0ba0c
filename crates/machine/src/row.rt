// A state's row of the trace.
ghost use Rattle.std.specs.Prelude.{◌≡◌};
ghost use Rattle.machine.specs.Row.{levels_of, row_of};

use crate::look::Look;
use crate::record::{DOWN, Machine};
use opcodes::cycle::status;

// The eight bytes of the trace, in their order: bytes, so no enum.
#[derive(Clone, Copy, Debug, PartialEq, Eq)]
pub struct Row {
    pub state: u8,
    pub kind: u8,
    pub low: u8,
    pub high: u8,
    pub byte: u8,
    pub status: u8,
    pub cycle: u8,
    pub levels: u8,
}

impl Machine {
    // READY, HOLD, INT and INTE as bits 0 to 3.
    #[tactic(auto, unfolding(crate::specs::Row::levels_of))]
    fn levels(self) -> u8
        ensures { result ≡ levels_of self.lines self.regs.inte }
    {
        u8::from(self.lines.ready == 1)
            + 2 * u8::from(self.lines.hold == 1)
            + 4 * u8::from(self.lines.int < DOWN)
            + 8 * u8::from(self.regs.inte)
    }

    // The state's row of the trace, v being the byte on the bus.
    #[tactic(auto, unfolding(crate::specs::Row::row_of))]
    pub fn row(self, y: Look, v: u8) -> Row
        ensures { result ≡ row_of y v self }
    {
        let [low, high] = y.address.to_le_bytes();
        Row {
            state: y.state,
            kind: y.kind,
            low,
            high,
            byte: if y.state == 3 { v } else { 0 },
            status: if y.state == 1 { status(y.kind) } else { 0 },
            cycle: y.cycle,
            levels: self.levels(),
        }
    }
}
