// Characters, one after the other, into lent bytes.
#![tactic(auto)]

ghost use Rattle.std.specs.Prelude.{◌∷◌, []};
ghost use Rattle.text.specs.Writer.{Adds};

pub mod numbers;

// Lent bytes, and the place where the next character goes. (No invariant on `at`: `put_of` says what a full text does, so nobody
// asks for room.)
#[derive(Drop)]
pub struct Text<'a> {
    pub out: &'a mut [u8],
    pub at: usize,
}

impl Text<'_> {
    // The character c; where there is no room, nothing. (By index: with `get_mut` the goals of both arms stayed open.)
    #[tactic(auto, unfolding(crate::specs::Text::text_of, crate::specs::Text::put_of, crate::specs::Text::written_of))]
    pub fn put(&mut self, c: u8)
        ensures { Adds (c ∷ []) self.old self.new }
    {
        if self.at < self.out.len() {
            self.out[self.at] = c;
            self.at += 1;
        }
    }

    // The characters s, one after the other.
    #[tactic(auto, unfolding(crate::specs::Text::written_of), using(crate::proofs::Writer::writes_turn))]
    pub fn write(&mut self, s: &[u8])
        ensures { Adds s.now self.old self.new }
    {
        for &c in s {
            self.put(c);
        }
    }
}
