//! Laws of texts.

ghost use Rattle.std.specs.Prelude.{◌≡◌};
ghost use Rattle.group_text.specs.Laws.{TextsAreWellFormed, TextsAreSmall, ResponsesAreLocal};
ghost use Rattle.group_text.specs.declared.text.TheConstants.{MOST_MEMBERS, MOST_SWITCHES};

/// The text of a group is well formed.
pub fn texts_are_well_formed()
    ensures { TextsAreWellFormed }
{}

/// The text of a group that isn't too large has at most 200 members, 800 switches and 2,600 local nodes.
pub fn texts_are_small()
    ensures { TextsAreSmall }
{}

/// Responses are local: the steady state of a member in its group's local graph, under the local
/// state, is its steady state in the whole graph.
///
/// So a group can be analysed by itself, and what was found holds wherever its text stands.
///
/// After Bryant, Beatty, Brace, Cho and Sheffler, "COSMOS: A Compiled Simulator for MOS Circuits",
/// 1987.
pub fn responses_are_local()
    ensures { ResponsesAreLocal }
{}

/// A law: a group has a text of up to 200 members and 800 switches.
pub fn limits_are_as_stated()
    ensures members { MOST_MEMBERS ≡ 200 }
    ensures switches { MOST_SWITCHES ≡ 800 }
{}
