// Records written.
ghost use Rattle.std.specs.Prelude.{◌≡◌, ◌+◌, ◌%◌, ◌≤◌, ◌<◌, length};
ghost use Rattle.text.specs.Writer.{Adds};
ghost use Rattle.intel_hex.specs.Digits.{digits_of, byte_sum};
ghost use Rattle.intel_hex.specs.Record.{record_of};
ghost use Rattle.intel_hex.specs.Write.{records_for, records_of};

use text::Text;

// Bytes as digits.
#[tactic(auto, unfolding(crate::specs::Digits::digits_of), using(text::proofs::Writer::writes_none, crate::proofs::Turns::digits_turn))]
fn digits(text: &mut Text<'_>, bytes: &[u8])
    ensures { Adds (digits_of bytes.now) text.old text.new }
{
    for &b in bytes {
        text.byte(b);
    }
}

// The sum of bytes, modulo 256. (At the sum of `digits` stands why there are two.)
#[tactic(auto, using(crate::proofs::Turns::sum_fold))]
fn sum(bytes: &[u8]) -> u8
    ensures { result ≡ byte_sum bytes.now % 256 }
{
    bytes.iter().fold(0, |sum: u8, b| sum.wrapping_add(*b))
}

// A record of a type with these data bytes. Inlined, the writer's place stays in a register: a sixth fewer instructions a byte.
#[tactic(auto, using(crate::proofs::Made::record_made))]
#[inline(always)]
pub(crate) fn record(text: &mut Text<'_>, kind: u8, address: u16, bytes: &[u8])
    requires { length bytes.now < 256 }
    ensures { Adds (record_of kind address bytes.now) text.old text.new }
{
    let [high, low] = address.to_be_bytes();
    let head = [bytes.len() as u8, high, low, kind];
    let sum = sum(&head).wrapping_add(sum(bytes));
    text.put(b':');
    digits(text, &head);
    digits(text, bytes);
    text.byte(sum.wrapping_neg());
    text.write(b"\r\n");
}

// The data records of a range of memory, which begins at an address.
#[tactic(auto, using(crate::proofs::Chunks::chunks_none, crate::proofs::Chunks::chunk_more, crate::proofs::Chunks::chunk_next))]
pub(crate) fn records(text: &mut Text<'_>, start: usize, range: &[u8])
    requires { start + length range.now ≤ 65536 }
    ensures { Adds (records_of (records_for (length range.now)) start range.now) text.old text.new }
{
    for (i, bytes) in range.chunks(16).enumerate() {
        record(text, 0, (start + 16 * i) as u16, bytes);
    }
}
