// The levels at a state, by a cursor that never goes back.
ghost use Rattle.std.specs.Prelude.{◌≡◌};
ghost use Rattle.schedule.specs.Levels.{act_of, once_of, Asks, Gives};

use crate::event::state_number;
use machine::record::Lines;

// The levels, and the number of events that lie behind.
#[derive(Clone, Copy, Debug, PartialEq, Eq)]
pub struct Due {
    pub lines: Lines,
    pub at: usize,
}

// The levels with one of them set.
#[tactic(auto, unfolding(crate::specs::Levels::act_of))]
fn act(line: u8, value: u8, l: Lines) -> Lines
    ensures { result ≡ act_of line value l }
{
    match line {
        0 => Lines { ready: value, ..l },
        1 => Lines { hold: value, ..l },
        _ => Lines { int: value, ..l },
    }
}

// The levels after the event e, which acts if its number is t.
#[tactic(auto, unfolding(crate::specs::Levels::once_of))]
fn once(e: &[u8; 6], t: u32, l: Lines) -> Lines
    ensures { result ≡ once_of e.now 0 t l }
{
    if state_number(e) == t {
        act(e[4], e[5], l)
    } else {
        l
    }
}

// The levels at the state numbered t, of a schedule of n events of which those before `from` lie before t. (A schedule, a count
// and a place, as its promise `Gives` names them; and by number, which is what it answers.)
#[tactic(auto, using(crate::proofs::Cursor::cursor))]
pub fn levels_at(s: &[u8], n: usize, from: usize, t: u32, l: Lines) -> Due
    requires { Asks s.now n from t }
    ensures { Gives s.now n t l result.lines result.at }
{
    let (events, _) = s.as_chunks::<6>();
    let mut lines = l;
    for i in from..n {
        let e = &events[i];
        if t < state_number(e) {
            return Due { lines, at: i };
        }
        lines = once(e, t, lines);
    }
    Due { lines, at: n }
}
