//! What the reading of a line is, whatever the line.

ghost use Rattle.std.specs.Prelude.{◌≡◌, ◌≢◌, ℕ, List, Ok, Err, Some};
ghost use Rattle.script_lang.specs.declared.command.Command.{Command};
ghost use Rattle.script_lang.specs.declared.command.ScriptFault.TheVariants as fault;
ghost use Rattle.script_lang.specs.Commands.{reading_of};
ghost use Rattle.script_lang.specs.Forms.{IsFormed};
ghost use Rattle.script_lang.specs.declared.TheConstants.{LEAST_WIDE, MOST_TIMES};

/// A law: a line asks for a well-formed command or for nothing, or is refused by a cause.
pub fn readings_are_commands_or_refusals()
    // Lack of memory is the reading of no line.
    ensures named { (line : List ℕ) → reading_of line ≢ Err fault.NoMemory }
    ensures formed { (line : List ℕ) (command : Command) → reading_of line ≡ Ok (Some command) → IsFormed command }
{}

/// A law: a number of `limit`, `cycle`, `keep` or `wide` is at most 1,000,000, and one of `wide` at least 200.
pub fn limits_are_as_stated()
    ensures most { MOST_TIMES ≡ 1000000 }
    ensures least { LEAST_WIDE ≡ 200 }
{}
