//! What holds of the limits and of names. The functions are for proofs alone.
ghost use Rattle.std.specs.Prelude.{◌≡◌};
ghost use Rattle.symbol_lines.specs.declared.TheConstants.{LEAST_VERTICES, MOST_ITEMS, MOST_VARIABLES, MOST_VERTICES};
ghost use Rattle.symbol_lines.specs.Names.{NamesStayApart};

/// A law: a list has up to 65,536 items, a script up to 4,096 variables, and `vertices` is given 2 to 4,294,967,295.
pub fn limits_are_as_stated()
    ensures items { MOST_ITEMS ≡ 65536 }
    ensures variables { MOST_VARIABLES ≡ 4096 }
    ensures least { LEAST_VERTICES ≡ 2 }
    ensures most { MOST_VERTICES ≡ 4294967295 }
{}

/// A law: no name is a variable and defined, and there are no more variables than there may be, whatever lines are
/// read.
#[tactic(auto, using(crate::proofs::NameLemmas::names_apart))]
pub fn no_variable_is_defined()
    ensures { NamesStayApart }
{}
