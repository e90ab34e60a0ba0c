// The lines of a text judged, and their records put into memory.
ghost use Rattle.std.specs.Prelude.{◌≡◌};
ghost use Rattle.intel_hex.specs.Lines.{text_lines};
ghost use Rattle.intel_hex.specs.Read.{judged_from, landed_from};

use crate::answer::{Fault, Refusal};
use crate::lines::bare;
use crate::record::{self, Fields, Line};

// All lines up to the end record, or up to the first that is faulty.
// (A match and no `?`: its arms are the three of `judged_by`; through `map_err` the loop's goals stayed open.)
pub(crate) fn judge(text: &[u8]) -> Result<(), Fault>
    ensures { result ≡ judged_from 1 (text_lines text.now) }
{
    for (i, line) in text.split_inclusive(|c| *c == b'\n').enumerate() {
        match record::what(bare(line)) {
            Ok(Line::Data) => {}
            Ok(Line::End) => return Ok(()),
            Err(reason) => return Err(reason.at(i + 1)),
        }
    }
    Err(Refusal::NoEnd.at(0))
}

// The records of a text that was judged good go into memory, one after the other.
pub(crate) fn land(text: &[u8], memory: &mut [u8; 65536])
    requires { judged_from 1 (text_lines text.now) ≡ Ok tt }
    ensures { memory.new ≡ landed_from (text_lines text.now) memory.old }
{
    for line in text.split_inclusive(|c| *c == b'\n') {
        let line = bare(line);
        if Fields::of(line).kind == 1 {
            return;
        }
        record::land(line, memory);
    }
}
