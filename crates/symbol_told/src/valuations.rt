//! The text of a valuation.

ghost use Rattle.std.specs.Prelude.{◌≡◌, ◌++◌, filter, length, nat_le, zip, IfOk, OnOk};
ghost use Rattle.std.specs.List.{flat_map, list_any};
ghost use Rattle.symbol_meaning.specs.Told as spec;
ghost use Rattle.symbol_told.specs.Valuations.{are_some, dash_unless, is_one, one_text};

use crate::MOST_TOLD;
use crate::putting::put;
use printed_lines::LineBuf;
use script_lang::Name;
use ternary::NoMemory;

/// Puts ` where` and a valuation of the variables, or nothing if there are none.
#[tactic(auto, using(crate::proofs::ValuationLemmas::where_by))]
pub(crate) fn put_where(
    out: &mut LineBuf,
    variables: &[Name],
    truths: &[bool],
) -> Result<(), NoMemory>
    ensures { OnOk result (out.new.bytes ≡ out.old.bytes ++ spec.where_text (zip variables.now truths.now)) }
{
    if has_some(variables, truths) {
        put(out, b" where")?;
        put_valuation(out, variables, truths)
    } else {
        Ok(())
    }
}

// Whether there are variables.
#[tactic(auto, using(crate::proofs::ValuationLemmas::some_pairs))]
fn has_some(variables: &[Name], truths: &[bool]) -> bool
    ensures { result ≡ are_some (zip variables.now truths.now) }
{
    !variables.is_empty() && !truths.is_empty()
}

/// Puts a valuation of the variables: all of them in order, if there are up to 64, and else those that are 1, or ` -`.
pub fn put_valuation(out: &mut LineBuf, variables: &[Name], truths: &[bool]) -> Result<(), NoMemory>
    ensures { OnOk result (out.new.bytes ≡ out.old.bytes ++ spec.valuation_text (zip variables.now truths.now)) }
{
    if are_few(variables, truths) {
        put_all(out, variables, truths)
    } else {
        put_ones(out, variables, truths)
    }
}

// Whether all variables are told.
fn are_few(variables: &[Name], truths: &[bool]) -> bool
    ensures { result ≡ nat_le (length (zip variables.now truths.now)) spec.most_told }
{
    variables.len().min(truths.len()) <= MOST_TOLD
}

// Puts all variables.
fn put_all(out: &mut LineBuf, variables: &[Name], truths: &[bool]) -> Result<(), NoMemory>
    ensures { OnOk result (out.new.bytes ≡ out.old.bytes ++ flat_map spec.variable_text (zip variables.now truths.now)) }
{
    for (name, &truth) in variables.iter().zip(truths) {
        put_variable(out, name.items(), truth)?;
    }
    Ok(())
}

// Puts the variables that are 1, or ` -` if none is.
fn put_ones(out: &mut LineBuf, variables: &[Name], truths: &[bool]) -> Result<(), NoMemory>
    ensures { OnOk result (out.new.bytes ≡ out.old.bytes ++ spec.ones_text (filter is_one (zip variables.now truths.now))) }
{
    let some = put_each_one(out, variables, truths)?;
    put_dash(out, some)
}

// Puts the variables that are 1, and tells whether there is one.
#[tactic(auto, using(crate::proofs::ValuationLemmas::or_later))]
fn put_each_one(out: &mut LineBuf, variables: &[Name], truths: &[bool]) -> Result<bool, NoMemory>
    ensures bytes { OnOk result (out.new.bytes ≡ out.old.bytes ++ flat_map one_text (zip variables.now truths.now)) }
    ensures some { IfOk result (λ some. some ≡ list_any is_one (zip variables.now truths.now)) }
{
    let mut some = false;
    for (name, &truth) in variables.iter().zip(truths) {
        put_one(out, name.items(), truth)?;
        some |= truth;
    }
    Ok(some)
}

// Puts a variable if it is 1.
fn put_one(out: &mut LineBuf, name: &[u8], truth: bool) -> Result<(), NoMemory>
    ensures { OnOk result (out.new.bytes ≡ out.old.bytes ++ one_text (name.now, truth)) }
{
    if truth {
        put_variable(out, name, true)
    } else {
        Ok(())
    }
}

// Puts a variable with its truth value.
fn put_variable(out: &mut LineBuf, name: &[u8], truth: bool) -> Result<(), NoMemory>
    ensures { OnOk result (out.new.bytes ≡ out.old.bytes ++ spec.variable_text (name.now, truth)) }
{
    put(out, b" $")?;
    put(out, name)?;
    put(out, b"=")?;
    put_digit(out, truth)
}

// Puts the digit of a truth value.
fn put_digit(out: &mut LineBuf, truth: bool) -> Result<(), NoMemory>
    ensures { OnOk result (out.new.bytes ≡ out.old.bytes ++ spec.truth_digit truth) }
{
    if truth {
        put(out, b"1")
    } else {
        put(out, b"0")
    }
}

// Puts ` -` if there is no variable that is 1.
fn put_dash(out: &mut LineBuf, some: bool) -> Result<(), NoMemory>
    ensures { OnOk result (out.new.bytes ≡ out.old.bytes ++ dash_unless some) }
{
    if some { Ok(()) } else { put(out, b" -") }
}
