//! Reading the words of the commands that edit the circuit's transistors.
ghost use Rattle.std.specs.Prelude.{◌≡◌, [], ◌∷◌, Err, IfErr, IfOk, IfSome, IsNone};
ghost use Rattle.script_lang.specs.Commands.{add_by, del_by, kind_by, strength_by, wire_by};

use crate::command::{Edit, ScriptFault};
use crate::lists::Name;
use crate::parts::kind_named;
use line_words::{Words, decimal};
use std::alloc::Global;
use ternary::NoMemory;

/// Reads the kind, the terminals and, if it is there, the strength of `add`.
pub(crate) fn read_add(
    alloc: Global,
    mut words: Words<'_>,
) -> Result<Result<Edit, ScriptFault>, NoMemory>
    ensures { IfOk result (λ answer. answer ≡ add_by words.entry) }
{
    let Some((kind, gate, source, drain)) = with_terminals(&mut words) else {
        return Ok(Err(ScriptFault::FewWords));
    };
    let strength = words.next();
    if words.next().is_some() {
        return Ok(Err(ScriptFault::ManyWords));
    }
    let Some(kind) = kind_named(kind) else {
        return Ok(Err(ScriptFault::BadValue));
    };
    let strength = match strength {
        Some(strength) => {
            let Some(strength) = decimal(strength) else {
                return Ok(Err(ScriptFault::BadNumber));
            };
            Some(strength)
        }
        None => None,
    };
    let gate = Name::from_slice(alloc, gate)?;
    let source = Name::from_slice(alloc, source)?;
    let drain = Name::from_slice(alloc, drain)?;
    Ok(Ok(Edit::Add {
        kind,
        gate,
        source,
        drain,
        strength,
    }))
}

// The first word, and those of a transistor's gate, source and drain behind it; None if there are
// fewer.
fn with_terminals<'a>(words: &mut Words<'a>) -> Option<(&'a [u8], &'a [u8], &'a [u8], &'a [u8])>
    ensures some { IfSome result (λ found. words.old
        ≡ found.0.now ∷ found.1.now ∷ found.2.now ∷ found.3.now ∷ words.new) }
    ensures none { IsNone result → (add_by words.old ≡ Err ScriptFault.FewWords)
        × (wire_by words.old ≡ Err ScriptFault.FewWords) }
{
    let word = words.next()?;
    let gate = words.next()?;
    let source = words.next()?;
    let drain = words.next()?;
    Some((word, gate, source, drain))
}

/// Reads the number of `del`.
pub(crate) fn read_del(mut words: Words<'_>) -> Result<Edit, ScriptFault>
    ensures { result ≡ del_by words.entry }
{
    let Some(number) = words.next() else {
        return Err(ScriptFault::FewWords);
    };
    if words.next().is_some() {
        return Err(ScriptFault::ManyWords);
    }
    match decimal(number) {
        Some(number) => Ok(Edit::Del(number)),
        None => Err(ScriptFault::BadNumber),
    }
}

// The two words, if there are neither fewer nor more.
fn pair<'a>(mut words: Words<'a>) -> Result<(&'a [u8], &'a [u8]), ScriptFault>
    ensures ok { IfOk result (λ pair. words.entry ≡ pair.0.now ∷ pair.1.now ∷ []) }
    ensures refused { IfErr result (λ fault.
        (strength_by words.entry ≡ Err fault) × (kind_by words.entry ≡ Err fault)) }
{
    let Some(one) = words.next() else {
        return Err(ScriptFault::FewWords);
    };
    let Some(other) = words.next() else {
        return Err(ScriptFault::FewWords);
    };
    match words.next() {
        Some(_) => Err(ScriptFault::ManyWords),
        None => Ok((one, other)),
    }
}

/// Reads the number and the strength of `strength`.
pub(crate) fn read_strength(words: Words<'_>) -> Result<Edit, ScriptFault>
    ensures { result ≡ strength_by words.entry }
{
    let (number, strength) = match pair(words) {
        Ok(pair) => pair,
        Err(fault) => return Err(fault),
    };
    match (decimal(number), decimal(strength)) {
        (Some(number), Some(strength)) => Ok(Edit::Strength(number, strength)),
        _ => Err(ScriptFault::BadNumber),
    }
}

/// Reads the number and the kind of `type`.
pub(crate) fn read_kind(words: Words<'_>) -> Result<Edit, ScriptFault>
    ensures { result ≡ kind_by words.entry }
{
    let (number, kind) = match pair(words) {
        Ok(pair) => pair,
        Err(fault) => return Err(fault),
    };
    let Some(number) = decimal(number) else {
        return Err(ScriptFault::BadNumber);
    };
    match kind_named(kind) {
        Some(kind) => Ok(Edit::Kind(number, kind)),
        None => Err(ScriptFault::BadValue),
    }
}

/// Reads the number and the terminals of `wire`.
pub(crate) fn read_wire(
    alloc: Global,
    mut words: Words<'_>,
) -> Result<Result<Edit, ScriptFault>, NoMemory>
    ensures { IfOk result (λ answer. answer ≡ wire_by words.entry) }
{
    let Some((number, gate, source, drain)) = with_terminals(&mut words) else {
        return Ok(Err(ScriptFault::FewWords));
    };
    if words.next().is_some() {
        return Ok(Err(ScriptFault::ManyWords));
    }
    let Some(number) = decimal(number) else {
        return Ok(Err(ScriptFault::BadNumber));
    };
    let gate = Name::from_slice(alloc, gate)?;
    let source = Name::from_slice(alloc, source)?;
    let drain = Name::from_slice(alloc, drain)?;
    Ok(Ok(Edit::Wire {
        number,
        gate,
        source,
        drain,
    }))
}
