// The lines of a text.
ghost use Rattle.std.specs.Prelude.{◌≡◌};
ghost use Rattle.intel_hex.specs.Lines.{bare_of};

// A line without its ending.
#[tactic(auto, unfolding(crate::specs::Lines::bare_of, crate::specs::Lines::ending_of))]
pub(crate) fn bare(line: &[u8]) -> &[u8]
    ensures { result.now ≡ bare_of line.now }
{
    match line {
        [bare @ .., b'\r', b'\n'] | [bare @ .., b'\n'] => bare,
        _ => line,
    }
}
