//! How the lines of a script are read.

ghost use Rattle.std.specs.Prelude.{◌≡◌, ◌⊎◌, Ok, Err, IfOk, IfErr, IfSome};
ghost use Rattle.script_run.specs.Words.{IsFormed, IsSound, Reading};

use netlist::Circuit;
use node_words::Vectors;
use script_lang::{Command, ScriptFault, read_command};
use std::alloc::Global;

/// Who reads the lines of a script.
///
/// Contracts see what a line asks for in a circuit with vectors. That is sound: a line that is no command has its
/// refusal, and a command is well formed.
pub trait LineReader {
    ghost reading: { Self → Reading };

    /// Reads a line in a circuit with vectors: the command that it asks for, or None exactly if there is nothing to do.
    fn read(
        &self,
        alloc: Global,
        line: &[u8],
        circuit: &Circuit,
        vectors: &Vectors,
    ) -> Result<Option<Command>, ScriptFault>
        ensures ok { IfOk result (λ asked. reading self.now circuit.now vectors.now line.now ≡ Ok asked) }
        ensures refused { IfErr result (λ fault. (fault ≡ ScriptFault.NoMemory)
            ⊎ (reading self.now circuit.now vectors.now line.now ≡ Err fault)) }
        ensures formed { IfOk result (λ asked. IfSome asked IsFormed) };

    ghost sound: { (reader : Self) → IsSound (reading reader) };
}

/// Reads each line as its command, whatever the circuit and the vectors are.
#[derive(Clone, Copy)]
pub struct Plain;

impl LineReader for Plain {
    ghost use Rattle.script_meaning.specs.Runs.{plain_reading};
    ghost use Rattle.script_meaning.proofs.ReadingLemmas.{plain-sound};

    ghost reading = { λ _. plain_reading };

    ghost sound = { λ _. plain-sound };

    fn read(
        &self,
        alloc: Global,
        line: &[u8],
        _circuit: &Circuit,
        _vectors: &Vectors,
    ) -> Result<Option<Command>, ScriptFault> {
        read_command(alloc, line)
    }
}
