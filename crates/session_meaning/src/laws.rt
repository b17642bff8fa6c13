//! What holds of a session's commands, whatever they are.

ghost use Rattle.std.specs.Prelude.{◌≡◌};
ghost use Rattle.session_meaning.specs.Laws.{ColumnsRefuseAlike, CommandsPassThroughOneList, CommandsPerformOneThing, EffectsAreUnique, SavesComeBack};
ghost use Rattle.session_meaning.specs.declared.TheConstants.{MOST_WATCHED, MOST_SAVES, FIRST_LIMIT};
ghost use Rattle.script_lang.specs.declared.TheConstants.{LEAST_WIDE};
ghost use Rattle.group_text.specs.declared.text.TheConstants.{MOST_MEMBERS};

/// A law: the watch list has up to 256 entries, up to 64 names keep states, and the limit of a phase is 100 at the start.
/// The least bound that `wide` sets is as large as a group with code may be, so no bound leaves a group between the two.
pub fn limits_are_as_stated()
    ensures watched { MOST_WATCHED ≡ 256 }
    ensures saves { MOST_SAVES ≡ 64 }
    ensures limit { FIRST_LIMIT ≡ 100 }
    ensures wide { LEAST_WIDE ≡ MOST_MEMBERS }
{}

/// A law: what `save` keeps of all nodes comes back, whole if no node was made since, whatever came between.
pub fn saves_come_back()
    ensures { SavesComeBack }
{}

/// A law: what a command does is determined. `effect`: it has one outcome and one list of lines. `performed`: so it
/// is with what is built before it, whose texts are the same.
pub fn commands_have_one_effect()
    ensures effect { EffectsAreUnique }
    ensures performed { CommandsPerformOneThing }
{}

/// A law: the steps and phases of a command, and the states that they pass through, are determined.
pub fn commands_pass_through_one_list()
    ensures { CommandsPassThroughOneList }
{}

/// A law: whether a command for columns is refused, and why, doesn't depend on the column.
pub fn columns_refuse_alike()
    ensures { ColumnsRefuseAlike }
{}
