//! What is kept of a line, as a law.
ghost use Rattle.std.specs.Prelude.{◌≡◌};
ghost use Rattle.talk_port.specs.Talks.{kept_bytes};
ghost use Rattle.talk_port.specs.Laws.{KeptTellsFault, KeptIsWhole};
ghost use Rattle.talk_port.specs.declared.talks.TheConstants.{KEPT_BYTES};

/// A law: of a line a prefix of 65,538 bytes is kept. It has the fault that the line has, and is the whole line unless
/// that is too long.
pub fn kept_prefix_tells_all()
    ensures limit { KEPT_BYTES ≡ kept_bytes }
    ensures fault { KeptTellsFault }
    ensures whole { KeptIsWhole }
{}
