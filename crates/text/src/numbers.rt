// Numbers as characters.
ghost use Rattle.std.specs.Prelude.{◌≡◌, ◌<◌};
ghost use Rattle.text.specs.Text.{text_of, written_of};
ghost use Rattle.text.specs.Writer.{Adds};
ghost use Rattle.text.specs.Numbers.{digit_of, byte_of, decimal_of};

use crate::Text;

// A digit, in hex too.
#[tactic(auto, unfolding(crate::specs::Numbers::digit_of))]
fn digit(d: u8) -> u8
    requires { d < 16 }
    ensures { result ≡ digit_of d }
{
    if d < 10 { 48 + d } else { 55 + d }
}

// A number in decimal, from a place of out on, and the place after it. The place is handed on by value: behind a reference it is
// stored and loaded again for each character, and a listing took nearly twice the time. It recurs, since std's `write!` promises what it
// writes only at Ok, and a writer here always writes.
#[tactic(auto, using(crate::proofs::Written::pieces, crate::proofs::Decimal::decimal_small, crate::proofs::Decimal::decimal_large))]
fn digits(out: &mut [u8], at: usize, n: usize) -> usize
    ensures { text_of out.new result ≡ written_of (decimal_of n) (text_of out.old at) }
{
    let (at, low) = if n < 10 {
        (at, n)
    } else {
        (digits(out, at, n / 10), n % 10)
    };
    let mut text = Text { out, at };
    text.put(digit(low as u8));
    text.at
}

impl Text<'_> {
    // A byte in two hex digits.
    #[tactic(auto, unfolding(crate::specs::Numbers::byte_of), using(crate::proofs::Written::pieces))]
    pub fn byte(&mut self, b: u8)
        ensures { Adds (byte_of b) self.old self.new }
    {
        self.put(digit(b / 16));
        self.put(digit(b % 16));
    }

    // A number in decimal.
    pub fn decimal(&mut self, n: usize)
        ensures { Adds (decimal_of n) self.old self.new }
    {
        self.at = digits(self.out, self.at, n);
    }
}
