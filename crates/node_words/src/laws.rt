//! Laws of what words come to. The functions are for proofs alone.
ghost use Rattle.std.specs.Prelude.{◌≡◌};
ghost use Rattle.node_words.specs.Laws.{AcceptedAreNodes, FaultsAreFirst, RangesAreFirst, RangesStandInBraces};
ghost use Rattle.node_words.specs.declared.TheConstants.{MOST_DEPTH, MOST_ENTRIES, MOST_IN_ALL, MOST_NUMBER};

/// A law: a list of words is refused for the first word that has a fault, behind the nodes of those before it;
/// and it isn't exactly if each word stands for nodes and a list has room for all of them.
pub fn the_first_fault_refuses()
    ensures first { FaultsAreFirst }
    ensures none { AcceptedAreNodes }
{}

/// A law: a text begins with a range exactly if it begins with `{`, a number, `:`, a number and `}`,
/// and the range of a word is the first that begins in it.
pub fn ranges_stand_in_braces()
    ensures braces { RangesStandInBraces }
    ensures first { RangesAreFirst }
{}

/// A law: a vector has up to 65,536 entries and all have up to 4,194,304, a range goes up to 1,000,000,
/// and up to 16 lie one in another.
pub fn limits_are_as_stated()
    ensures entries { MOST_ENTRIES ≡ 65536 }
    ensures all { MOST_IN_ALL ≡ 4194304 }
    ensures number { MOST_NUMBER ≡ 1000000 }
    ensures depth { MOST_DEPTH ≡ 16 }
{}
