//! Strengths that nothing sets.
ghost use Rattle.std.specs.Prelude.{◌≡◌};
ghost use Rattle.netlist.specs.Edits as spec;

use switch_paths::SwitchKind;

/// The strength of a transistor that nothing sets: 1 for depletion, 2 for the others.
pub fn usual_strength(kind: SwitchKind) -> u64
    ensures { result ≡ spec.usual_strength kind }
{
    match kind {
        SwitchKind::NChan | SwitchKind::PChan => 2,
        SwitchKind::Always => 1,
    }
}
