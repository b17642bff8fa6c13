//! What holds of the limits. The function is for proofs alone.
ghost use Rattle.std.specs.Prelude.{◌≡◌};
ghost use Rattle.decision_graph.specs.declared.TheConstants.{MOST_VARIABLES};

/// A law: a graph has at most 4,096 variables.
pub fn limits_are_as_stated()
    ensures { MOST_VARIABLES ≡ 4096 }
{}
