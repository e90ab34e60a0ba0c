// The lines of a listing.
ghost use Rattle.text.specs.Writer.{Adds};
ghost use Rattle.listing.specs.Lines.{name_of, state_line_of, last_line_of};

use text::Text;

// The name of a state code. Codes that the paper does not list stand after a T.
#[tactic(auto, unfolding(crate::specs::Lines::name_of), using(text::proofs::Written::pieces))]
fn name(text: &mut Text<'_>, code: u8)
    ensures { Adds (name_of code) text.old text.new }
{
    match code {
        6 => text.write(b"TW"),
        7 => text.write(b"HOLD"),
        8 => text.write(b"HALT"),
        _ => {
            text.put(b'T');
            text.decimal(usize::from(code));
        }
    }
}

// The line of a state: its number, and what its row of the trace says.
#[tactic(auto, unfolding(crate::specs::Lines::state_line_of), using(text::proofs::Written::pieces))]
pub(crate) fn state_line(text: &mut Text<'_>, number: usize, row: &[u8; 8])
    ensures { Adds (state_line_of number row.now) text.old text.new }
{
    text.decimal(number);
    text.put(b' ');
    name(text, row[0]);
    text.put(b' ');
    text.decimal(usize::from(row[1]));
    text.put(b' ');
    text.byte(row[3]);
    text.byte(row[2]);
    text.put(b' ');
    text.byte(row[4]);
    text.put(b'\n');
}

// The last line: A, PC and the states done.
#[tactic(auto, unfolding(crate::specs::Lines::last_line_of), using(text::proofs::Written::pieces))]
pub(crate) fn last_line(text: &mut Text<'_>, a: u8, pc: u16, states: usize)
    ensures { Adds (last_line_of a pc states) text.old text.new }
{
    let [high, low] = pc.to_be_bytes();
    text.write(b"A ");
    text.byte(a);
    text.write(b" PC ");
    text.byte(high);
    text.byte(low);
    text.write(b" STATES ");
    text.decimal(states);
    text.put(b'\n');
}
