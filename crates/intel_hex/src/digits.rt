// Hex digits.
ghost use Rattle.std.specs.Prelude.{◌≡◌, ◌+◌, ◌/◌, ◌%◌, ◌≤◌, ◌<◌, true, length};
ghost use Rattle.std.proofs.lemmas.List.Edits.{sets};
ghost use Rattle.intel_hex.specs.Digits.{is_hex, digit_value, all_hex, PairAt, byte_at, bytes_in, byte_sum};

// What a hex digit counts: its low four bits, and 9 more for a letter. (By its bits, as docs/DECISIONS.md says.)
#[tactic(auto, using(crate::proofs::Scan::value_bits))]
fn value(c: u8) -> u8
    requires { is_hex c ≡ true }
    ensures { (result ≡ digit_value c) × (result < 16) }
{
    c % 16 + 9 * (c / 64)
}

// The byte whose digits stand at a place and after it.
#[tactic(auto, unfolding(crate::specs::Digits::byte_at, crate::specs::Digits::two_digits))]
pub(crate) fn byte_at(s: &[u8], i: usize) -> u8
    requires { PairAt s.now i }
    ensures { result ≡ byte_at s.now i }
{
    16 * value(s[i]) + value(s[i + 1])
}

// Whether every character is a hex digit. (No `all`: it stops at the first that is none, so that the compiler cannot make it wide;
// reading took 76.5 instructions a byte of memory with it, and takes 61.1.)
#[tactic(auto, unfolding(crate::specs::Digits::is_hex))]
pub(crate) fn all_hex(s: &[u8]) -> bool
    ensures { result ≡ all_hex s.now }
{
    let mut all = true;
    for c in s {
        all &= c.is_ascii_hexdigit();
    }
    all
}

// The sum of the bytes that digits say, modulo 256. Not one function with the sum of `output`, whose bytes need no decoding: over
// an iterator it would have to ask that `byte_at` may be called on each pair, and be no plainer.
// (`chunks_exact` here and in `put`, and no `as_chunks`: with that both proved, and reading took 63.3 instructions a byte.)
#[tactic(auto, using(crate::proofs::Scan::bytes_pair, crate::proofs::Scan::bytes_none), unfolding(crate::specs::Digits::byte_sum))]
pub(crate) fn sum(s: &[u8]) -> u8
    requires { all_hex s.now ≡ true }
    ensures { result ≡ byte_sum (bytes_in s.now) % 256 }
{
    let mut total: u8 = 0;
    for pair in s.chunks_exact(2) {
        total = total.wrapping_add(byte_at(pair, 0));
    }
    total
}

// The bytes that digits say go into memory, from an address on. (By the address: with `zip` over that part of memory what `byte_at`
// asks of each pair stayed open.)
#[tactic(auto, using(crate::proofs::Scan::bytes_none))]
pub(crate) fn put(s: &[u8], memory: &mut [u8], address: usize)
    requires { (all_hex s.now ≡ true) × (address + length s.now / 2 ≤ length memory.old) }
    ensures { memory.new ≡ sets memory.old address (bytes_in s.now) }
{
    for (i, pair) in s.chunks_exact(2).enumerate() {
        memory[address + i] = byte_at(pair, 0);
    }
}
