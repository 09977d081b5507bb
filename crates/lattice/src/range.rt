// Ranges of numbers.
ghost use Rattle.std.specs.Prelude.{◌≡◌};
ghost use Rattle.lattice.specs.Range.{in_range};

// Is x at least low and at most high?
#[tactic(auto, unfolding(crate::specs::Range::in_range))]
pub fn within(low: usize, high: usize, x: usize) -> bool
    ensures { result ≡ in_range low high x }
{
    low <= x && x <= high
}
