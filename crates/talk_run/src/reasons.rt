//! The answers to `why` and `echo`.
ghost use Rattle.std.specs.Prelude.{◌≡◌, ◌∷◌, ◌++◌, List, IfOk, OnOk};
ghost use Rattle.talk_run.specs.Words.{mind_of, node_of, echo_line, faults_after, ExplainsName, GroupTextData, Speaks, Tries};

use crate::refusals::refuse;
use crate::teller::Teller;
use column_stage::PlainStage;
use cosmos_session::Session;
use line_words::Words;
use ports::PortFault;
use printed_lines::FaultCode;
use script_reports::reasons_text;
use std::alloc::{AllocError, Global};
use talk_port::Talk;

/// Says the two lines that explain the node of a name, or the refusal of the line with this number if it isn't in use.
pub(crate) fn explain<M: PlainStage, T: Talk + Drop>(
    alloc: Global,
    session: &Session<M>,
    number: u64,
    name: &[u8],
    out: &mut Teller<T>,
) -> Result<(), PortFault>
    ensures said { (analysed : List GroupTextData) → Speaks
        (ExplainsName (mind_of session.now.core number analysed) (node_of session.now.core.circuit.names name.now))
        (ExplainsName (mind_of session.now.core number analysed) (node_of session.now.core.circuit.names name.now))
        out.old.spoken.talk out.new.spoken.talk result }
    ensures hearing { out.new.spoken.unheard ≡ out.old.spoken.unheard }
    ensures faults { out.new.faults ≡ faults_after out.old.faults result }
{
    match session.circuit().find(name) {
        Some(node) => match reasons_text(alloc, session, node) {
            Ok(text) => out.say(&text),
            Err(_) => Err(PortFault::NoMemory),
        },
        None => refuse(alloc, number, FaultCode::E1UnknownNode, name, out),
    }
}

/// Says a word and those behind it again.
pub(crate) fn echo<T: Talk + Drop>(
    alloc: Global,
    first: &[u8],
    words: Words<'_>,
    out: &mut Teller<T>,
) -> Result<(), PortFault>
    ensures said { Tries (echo_line (first.now ∷ words.entry)) out.old.spoken.talk out.new.spoken.talk result }
    ensures hearing { out.new.spoken.unheard ≡ out.old.spoken.unheard }
    ensures faults { out.new.faults ≡ faults_after out.old.faults result }
{
    match echo_text(alloc, first, words) {
        Ok(text) => out.say(&text),
        Err(_) => Err(PortFault::NoMemory),
    }
}

// The line that echoes words.
#[tactic(auto, using(crate::proofs::EchoLemmas::first_put, crate::proofs::EchoLemmas::word_put, crate::proofs::EchoLemmas::line_put))]
fn echo_text(alloc: Global, first: &[u8], words: Words<'_>) -> Result<Vec<u8>, AllocError>
    ensures { IfOk result (λ text. text.items ≡ echo_line (first.now ∷ words.entry)) }
{
    let mut text = Vec::from_slice(alloc, b"echo")?;
    push_word(&mut text, first)?;
    for word in words {
        push_word(&mut text, word)?;
    }
    text.push(b'\n')?;
    Ok(text)
}

// Puts a blank and a word behind a text.
fn push_word(text: &mut Vec<u8>, word: &[u8]) -> Result<(), AllocError>
    ensures { OnOk result (text.new.items ≡ text.old.items ++ 32 ∷ word.now) }
{
    text.push(b' ')?;
    text.extend_from_slice(word)
}
