// The tests 3, 4 and 5 of a schedule.
ghost use Rattle.std.specs.Prelude.{◌≡◌};
ghost use Rattle.std.specs.List.{list_all, IsAllAdjacentAnswer};
ghost use Rattle.schedule.specs.Events.{listed_at, may_follow, checked_of};

use crate::event::{listed, state_number};

// Which of the tests fails first.
#[derive(Clone, Copy, Debug, PartialEq, Eq)]
pub enum Fault {
    Length,
    Value,
    Order,
}

// Whether event e may follow event d.
#[tactic(auto, unfolding(crate::specs::Events::may_follow))]
fn follows(d: &[u8; 6], e: &[u8; 6]) -> bool
    ensures { result ≡ may_follow d.now e.now }
{
    let x = state_number(d);
    let y = state_number(e);
    x < y || (x == y && d[4] < e[4])
}

// Whether each of these events has a line and a value of the list.
fn all_listed(events: &[[u8; 6]]) -> bool
    ensures { result ≡ list_all (λ e. listed_at e 0) events.now }
{
    events.iter().all(|e| listed(e[4], e[5]))
}

// Whether these events follow each other.
fn all_follow(events: &[[u8; 6]]) -> bool
    ensures { IsAllAdjacentAnswer (λ d e b. b ≡ may_follow d e) events.now result }
{
    events.is_sorted_by(|d, e| follows(d, e))
}

// The tests 3, 4 and 5, in that order.
#[tactic(auto, unfolding(crate::specs::Events::checked_of))]
pub fn check(s: &[u8]) -> Result<(), Fault>
    ensures { result ≡ checked_of s.now }
{
    let (events, rest) = s.as_chunks::<6>();
    if !rest.is_empty() || 1000 < events.len() {
        return Err(Fault::Length);
    }
    if !all_listed(events) {
        return Err(Fault::Value);
    }
    if !all_follow(events) {
        return Err(Fault::Order);
    }
    Ok(())
}
