// An event: six bytes of a schedule. What is said of event i of a schedule s is said of it as the first of its own six bytes.
ghost use Rattle.std.specs.Prelude.{◌≡◌};
ghost use Rattle.schedule.specs.Events.{state_number_of, listed_of};

// The state number, low byte first.
#[tactic(auto, unfolding(crate::specs::Events::state_number_of))]
pub(crate) fn state_number(e: &[u8; 6]) -> u32
    ensures { result ≡ state_number_of e.now 0 }
{
    u32::from_le_bytes([e[0], e[1], e[2], e[3]])
}

// Whether an event may have this line and value: bytes of the schedule, which may hold any, so no enum.
#[tactic(auto, unfolding(crate::specs::Events::listed_of))]
pub(crate) fn listed(line: u8, value: u8) -> bool
    ensures { result ≡ listed_of line value }
{
    (line < 2 && value < 2) || (line == 2 && value < 9)
}
