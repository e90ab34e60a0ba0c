// 16-bit numbers: the sum of two register pairs, and steps that count modulo 65,536.
ghost use Rattle.std.specs.Prelude.{◌≡◌};
ghost use Rattle.alu.specs.Words.{dad_of, up_of, down_of};

// A 16-bit sum and its carry. (No Option: the sum counts where there is a carry too.)
#[derive(Clone, Copy, Debug, PartialEq, Eq)]
pub struct Sum16 {
    pub value: u16,
    pub cy: bool,
}

// DAD.
#[tactic(auto, unfolding(crate::specs::Words::dad_of))]
pub fn dad(h: u16, x: u16) -> Sum16
    ensures { result ≡ dad_of h x }
{
    let (value, cy) = h.overflowing_add(x);
    Sum16 { value, cy }
}

// x + n, as PC, SP and every address count. (A name for the library's method, as `down` is: public, and leaves exports it to C.)
pub fn up(x: u16, n: u16) -> u16
    ensures { result ≡ up_of x n }
{
    x.wrapping_add(n)
}

// x - n, likewise.
pub fn down(x: u16, n: u16) -> u16
    ensures { result ≡ down_of x n }
{
    x.wrapping_sub(n)
}
