// A trace as text: a line for each state before the machine halts, and a last line.
#![tactic(auto)]

ghost use Rattle.std.specs.Prelude.{◌≡◌};
ghost use Rattle.text.specs.Writer.{Adds};
ghost use Rattle.listing.specs.Listing.{before_halt_of, state_lines_of, Lists};

use crate::lines::{last_line, state_line};
use text::Text;

mod lines;

// How many of the first states of a trace, given by its rows, come before the first halt state.
#[tactic(auto, unfolding(crate::specs::Listing::before_halt_of))]
fn before_halt(rows: &[[u8; 8]], states: usize) -> usize
    ensures { result ≡ before_halt_of rows.now states }
{
    rows.iter()
        .take(states)
        .take_while(|row| row[0] != 8)
        .count()
}

// The lines of the states with these rows, from state 0 on.
#[tactic(auto, unfolding(crate::specs::Listing::state_lines_of), using(text::proofs::Writer::writes_none, crate::proofs::Turn::lines_turn))]
fn state_lines(text: &mut Text<'_>, rows: &[[u8; 8]])
    ensures { Adds (state_lines_of 0 rows.now) text.old text.new }
{
    for (i, row) in rows.iter().enumerate() {
        state_line(text, i, row);
    }
}

// The listing of a trace, from the start of out on, and its length: the states before the first halt state, then A, PC and
// the number of these states. What finds no room in out is left out; with 38 bytes a row and 41 more, all fits.
#[tactic(auto, using(crate::proofs::Halt::rows_taken))]
pub fn listing(out: &mut [u8], trace: &[u8], states: usize, a: u8, pc: u16) -> usize
    ensures { Lists trace.now states a pc out.old result out.new }
{
    let (rows, _) = trace.as_chunks::<8>();
    let n = before_halt(rows, states);
    let mut text = Text { out, at: 0 };
    state_lines(&mut text, &rows[..n]);
    last_line(&mut text, a, pc, n);
    text.at
}
