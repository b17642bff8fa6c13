//! The line of an assignment that isn't met.
ghost use Rattle.std.specs.Prelude.{◌≡◌, List, map, IfErr, IfOk};
ghost use Rattle.vector_values.specs.Values as wide;
ghost use Rattle.printed_lines.specs.Lines.{wanted_letter};
ghost use Rattle.node_values.specs.Givings as giving;
ghost use Rattle.symbol_meaning.specs.Merging.{wanted_text};
ghost use Rattle.symbol_meaning.specs.Told.{Unmet};
ghost use Rattle.symbol_expecting.specs.Faults.{IsSpentBy, IsUnheard, RefusedExpected, faults_expected};
ghost use Rattle.symbol_expecting.specs.Missing.{AreWantedOf};
ghost use Rattle.symbol_expecting.specs.Telling.{TellsLine, text_wanted, unmet_told, wanted_under};

use crate::fault::ExpectFault;
use crate::letters::{is_formula, letters, states};
use cosmos_session::Session;
use netlist::Circuit;
use node_words::{Named, Vectors};
use std::alloc::{AllocError, Global};
use symbol_giving::SymbolLetter;
use symbol_script::Assignment;
use symbol_stage::SymbolStage;
use symbol_told::{SymbolLines, ToldLine};
use ternary::Tern;

/// Tells the line of an assignment whose nodes aren't as they are wanted under a valuation, after so many waveform lines; and that
/// something was told.
pub(crate) fn tell_unmet<L: SymbolLines>(
    session: &Session<SymbolStage>,
    alloc: Global,
    own: &Assignment,
    pairs: &[(usize, SymbolLetter)],
    vars: &[bool],
    n: u64,
    out: &mut L,
) -> Result<bool, ExpectFault>
    requires { AreWantedOf session.now.stage pairs.now }
    ensures told { TellsLine L.hear L.part (unmet_told session.now own.now pairs.now vars.now n) (L.heard out.old) (L.heard out.new) result }
    ensures spent { IfErr result (IsSpentBy session.now.stage) }
    ensures faults { L.faults out.new ≡ faults_expected (L.faults out.old) result }
    ensures refusals { RefusedExpected (L.refusals out.old) (L.refusals out.new) result }
{
    let wanted = text_of_wanted(session, alloc, own, pairs, vars)?;
    let got = states(alloc, session.stage(), pairs, vars)?;
    tell_line(own.name.items(), &wanted, &got, n, vars, out)
}

// Tells this line.
fn tell_line<L: SymbolLines>(
    name: &[u8],
    wanted: &[u8],
    got: &[Tern],
    n: u64,
    truths: &[bool],
    out: &mut L,
) -> Result<bool, ExpectFault>
    ensures told { TellsLine L.hear L.part (Unmet name.now wanted.now got.now n truths.now) (L.heard out.old) (L.heard out.new) result }
    ensures unheard { IfErr result IsUnheard }
    ensures faults { L.faults out.new ≡ faults_expected (L.faults out.old) result }
    ensures refusals { RefusedExpected (L.refusals out.old) (L.refusals out.new) result }
{
    let line = ToldLine::Unmet {
        name,
        wanted,
        got,
        n,
        truths,
    };
    match out.tell(line, &[], &[]) {
        Ok(()) => Ok(true),
        Err(fault) => Err(ExpectFault::Unheard(fault)),
    }
}

// The value that is told as the wanted one: a formula of a node as it is written, and else the letters under the valuation.
fn text_of_wanted(
    session: &Session<SymbolStage>,
    alloc: Global,
    own: &Assignment,
    pairs: &[(usize, SymbolLetter)],
    vars: &[bool],
) -> Result<Vec<u8>, AllocError>
    requires { AreWantedOf session.now.stage pairs.now }
    ensures { IfOk result (λ text. text.items ≡ text_wanted session.now own.now (wanted_under session.now.stage pairs.now vars.now)) }
{
    let vector = is_vector(session.circuit(), session.vectors(), own.name.items());
    let formula = is_formula(&own.value);
    let bytes = letters(alloc, session.stage(), pairs, vars)?;
    chosen(alloc, vector, formula, own.text.items(), bytes)
}

// The text if it is that of a formula of a node, and else these bytes.
fn chosen(
    alloc: Global,
    vector: bool,
    formula: bool,
    text: &[u8],
    bytes: Vec<u8>,
) -> Result<Vec<u8>, AllocError>
    ensures { IfOk result (λ told. (wanted : List wide.Letter) → bytes.items ≡ map wanted_letter wanted → told.items ≡ wanted_text vector formula text.now wanted) }
{
    if vector {
        return Ok(bytes);
    }
    if formula {
        return Vec::from_slice(alloc, text);
    }
    Ok(bytes)
}

// Whether the name is that of a vector, and of no node in use.
fn is_vector(circuit: &Circuit, vectors: &Vectors, name: &[u8]) -> bool
    ensures { result ≡ giving.is_vector circuit.now vectors.now name.now }
{
    matches!(vectors.named(circuit, name), Named::Vector(_))
}
