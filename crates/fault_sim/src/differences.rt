//! Where two rows differ.
ghost use Rattle.std.specs.Prelude.{◌≡◌, MatchOption};
ghost use Rattle.fault_sim.specs.Traces.{differs, AreAlikeRows, DifferFirstAt};

use ternary::Tern;

/// The first entry at which the values of a row differ, strongly or weakly, if they do.
pub fn first_in_row(strong: bool, good: &[Tern], bad: &[Tern]) -> Option<usize>
    ensures { MatchOption result (AreAlikeRows strong good.now bad.now) (DifferFirstAt strong good.now bad.now) }
{
    good.iter()
        .zip(bad)
        .position(|(value, other)| differ(strong, *value, *other))
}

// Whether a good value and a fault's differ, strongly or weakly.
fn differ(strong: bool, good: Tern, bad: Tern) -> bool
    ensures { result ≡ differs strong good bad }
{
    match (good, bad) {
        (Tern::Zero, Tern::One) | (Tern::One, Tern::Zero) => strong,
        (Tern::Zero | Tern::One, Tern::Unk) => !strong,
        _ => false,
    }
}
