//! What a quiet session is started of besides its maker.

ghost use Rattle.std.specs.Prelude.{◌≡◌, true, IfOk};
ghost use Rattle.line_words.specs.Files as file;
ghost use Rattle.symbol_meaning.specs.Scripts.{read_of, variables_of};

use crate::SymbolSession;
use crate::starting::name_at;
use netlist::Circuit;
use script_lang::{Name, NameList};
use std::alloc::Global;
use std::marker::Model;
use symbol_equiv::SessionStart;
use symbol_run::SymbolFault;
use ternary::NoMemory;
use truth_makers::Symbols;
use unseen_text::UnseenText;

/// What a quiet session is started of besides its maker: a circuit, and the variables of a script.
///
/// Contracts see the circuit, and the text of the script.
#[derive(Drop)]
pub struct SymbolStart {
    alloc: Global,
    circuit: Circuit,
    variables: NameList,
    text: UnseenText,
}

impl Model for SymbolStart {
    ghost use Rattle.std.specs.Prelude.{◌≡◌, true};
    ghost use Rattle.line_words.specs.Files as file;
    ghost use Rattle.symbol_meaning.specs.Scripts.{read_of, variables_of};
    ghost use Rattle.symbol_session.specs.Starting.{StartData};

    ghost Value = { StartData };

    ghost view = { λ start. record { circuit = start.circuit; text = start.text.text } };

    ghost invariant = { λ start. start.variables ≡ variables_of (read_of true (file.cut_line start.text.text) (file.lines_in start.text.text)) };
}

impl SymbolStart {
    /// A start in a circuit, of a quiet script with these variables.
    pub fn new(
        alloc: Global,
        circuit: Circuit,
        variables: &[Name],
        text: &[u8],
    ) -> Result<SymbolStart, NoMemory>
        requires { variables.now ≡ variables_of (read_of true (file.cut_line text.now) (file.lines_in text.now)) }
        ensures circuit { IfOk result (λ start. start.circuit ≡ circuit) }
        ensures text { IfOk result (λ start. start.text ≡ text.now) }
    {
        let variables = same_names(alloc, variables)?;
        Ok(SymbolStart {
            alloc,
            circuit,
            variables,
            text: UnseenText::of(text),
        })
    }
}

// A list of these names.
fn same_names(alloc: Global, names: &[Name]) -> Result<NameList, NoMemory>
    ensures { IfOk result (λ list. list ≡ names.now) }
{
    let mut list = NameList::new(alloc);
    for k in 0..names.len() {
        let name = Name::from_slice(alloc, name_at(names, k))?;
        list.push(name)?;
    }
    Ok(list)
}

impl SessionStart<SymbolSession> for SymbolStart {
    ghost use Rattle.symbol_session.specs.Starting.{data_at_start, valuations_at_start};

    ghost starts = { data_at_start };

    ghost valuations = { valuations_at_start };

    fn start(self, symbols: Symbols) -> Result<SymbolSession, SymbolFault> {
        let SymbolStart {
            alloc,
            circuit,
            variables,
            text,
        } = self;
        SymbolSession::begin(alloc, circuit, symbols, variables.items(), text, true)
    }
}
