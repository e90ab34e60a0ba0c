// The 24 bytes before the ports and the memory.
ghost use Rattle.std.specs.Prelude.{◌≡◌};
ghost use Rattle.saved.specs.Header.{mode_of, header_with};

use machine::record::{Machine, Position};
use opcodes::cycle::is_none;

// 0 fetch next, 1 halted, 2 stopped; none inside an instruction, as with the T1 of an acknowledge next.
#[tactic(auto, unfolding(crate::specs::Header::mode_of, crate::specs::Header::fetch_mode))]
pub(crate) fn mode(m: Machine) -> Option<u8>
    ensures { result ≡ mode_of m.kept m.next }
{
    match m.next {
        Position::Fetch if is_none(m.kept.ack) => Some(0),
        Position::Halt => Some(1),
        Position::Stop => Some(2),
        _ => None,
    }
}

// The 24 bytes of a machine, with the byte what at 13.
#[tactic(auto, unfolding(crate::specs::Header::header_with))]
pub fn header_with(what: u8, m: Machine) -> [u8; 24]
    ensures { result ≡ header_with what m }
{
    let regs = m.regs;
    let [sp_low, sp_high] = regs.sp.to_le_bytes();
    let [pc_low, pc_high] = regs.pc.to_le_bytes();
    let [clock_0, clock_1, clock_2, clock_3] = m.clock.to_le_bytes();
    [
        regs.a,
        regs.f,
        regs.b,
        regs.c,
        regs.d,
        regs.e,
        regs.h,
        regs.l,
        sp_low,
        sp_high,
        pc_low,
        pc_high,
        u8::from(regs.inte),
        what,
        clock_0,
        clock_1,
        clock_2,
        clock_3,
        m.lines.ready,
        m.lines.hold,
        m.lines.int,
        0,
        0,
        0,
    ]
}
