//! The commands that tell of what is there: the lines of expectations that aren't met, and of names that are shown.

ghost use Rattle.std.specs.Prelude.{◌≡◌, ◌≤◌, ◌<◌, ◌^◌, ℕ, List, [], ◌∷◌, ◌++◌, None, map, length, All, IfErr, IfOk, OnOk};
ghost use Rattle.std.specs.List.{cons_option, list_all};
ghost use Rattle.cosmos_session.specs.Words.{GroupTextData, nodes, state_at, AreInRoom, room_of, given_refusal, nodes_named, none_at};
ghost use Rattle.cosmos_session.specs.Words.{values_refusal, IsSinkFault, faults_applied, refusals_sent, AreShortLists, ObeysOn, Sent};
ghost use Rattle.cosmos_session.specs.Words.{letters_given, IsFaultFor};
ghost use Rattle.script_lang.specs.declared.command.Command.TheVariants as family;
ghost use Rattle.script_lang.specs.declared.command.Tell.TheVariants as asked;
ghost use Rattle.session_meaning.specs.Effects as effect;

use crate::naming::count_of;
use crate::refusals;
use crate::session::Session;
use crate::values::{pairs_given, place_refusal};
use crate::waves::{WaveRoom, tell_line};
use column_stage::PlainStage;
use netlist::Circuit;
use node_words::{Named, Vectors};
use printed_lines::{COLUMN_ROOM, EXPECT_LINE_ROOM, SHOW_LINE_ROOM};
use script_lang::{Name, NameList, Tell, Value, ValueList};
use session_meaning::ApplyFault;
use std::alloc::{AllocError, Global};
use std::marker::Model;
use ternary::{NoMemory, Tern};
use told_lines::{Line, Lines};
use vector_values::Letter;

/// The line of an expectation that isn't met.
#[derive(Drop)]
pub(crate) struct UnmetLine {
    name: Name,
    want: Vec<Letter>,
    got: Vec<Tern>,
    n: u64,
}

impl Model for UnmetLine {
    ghost use Rattle.std.specs.Prelude.{◌<◌, ◌^◌, length};
    ghost use Rattle.told_lines.specs.Lines.{Line, Unmet};

    ghost Value = { Line };

    ghost view = { λ line. Unmet line.name line.want.items line.got.items line.n };

    ghost invariant = { λ line. (length line.want.items < 2 ^ 60) × (length line.got.items < 2 ^ 60) };
}

impl<M: PlainStage> Session<M> {
    /// Tells of what is there. Nothing is analysed for it, whatever was before.
    pub(crate) fn tell<L: Lines>(&mut self, tell: &Tell, out: &mut L) -> Result<(), ApplyFault>
        ensures obeys { (texts : List GroupTextData) → ObeysOn L.hear L.part M.did self.old (family.Tell tell.now) self.new (L.heard out.old) (L.heard out.new)
            texts texts (L.refusals out.old) (L.refusals out.new) result }
        ensures faults { L.faults out.new ≡ faults_applied (L.faults out.old) result }
    {
        match tell {
            Tell::Expect(list) => self.expect(list, out),
            Tell::Show(names) => self.show(names, out),
            Tell::Look(names) => self.look(names, out),
        }
    }

    // `expect`: tells the line of each assignment that isn't met.
    fn expect<L: Lines>(&mut self, list: &ValueList, out: &mut L) -> Result<(), ApplyFault>
        ensures obeys { (texts : List GroupTextData) → ObeysOn L.hear L.part M.did self.old (family.Tell (asked.Expect list.now)) self.new
            (L.heard out.old) (L.heard out.new) texts texts (L.refusals out.old) (L.refusals out.new) result }
        ensures faults { L.faults out.new ≡ faults_applied (L.faults out.old) result }
    {
        let lines = self.unmet_lines(list.items())?;
        out.reserve(room_for(&lines))?;
        let told = tell_unmet(&lines, out);
        self.missed |= !lines.is_empty();
        told
    }

    // The line of each assignment that isn't met, from left to right.
    fn unmet_lines(&self, list: &[(Name, Value)]) -> Result<Vec<UnmetLine>, ApplyFault>
        ensures allowed { OnOk result (values_refusal none_at self.now.core.circuit self.now.core.vectors list.now ≡ None) }
        ensures lines { IfOk result (λ lines. lines.items ≡ effect.unmet_lines self.now.core list.now) }
        ensures refused { IfErr result (IsFaultFor (values_refusal none_at self.now.core.circuit self.now.core.vectors list.now)) }
    {
        if let Some(refusal) = place_refusal(&self.circuit, &self.vectors, list) {
            return Err(ApplyFault::Refused(refusal));
        }
        let mut lines = Vec::new(self.alloc);
        for (name, value) in list {
            self.add_unmet(name.items(), value, &mut lines)?;
        }
        Ok(lines)
    }

    // Puts the line of an assignment behind others, if it isn't met.
    fn add_unmet(
        &self,
        name: &[u8],
        value: &Value,
        lines: &mut Vec<UnmetLine>,
    ) -> Result<(), ApplyFault>
        ensures allowed { OnOk result (given_refusal none_at (letters_given self.now.core.circuit self.now.core.vectors (name.now, value.now)) ≡ None) }
        ensures lines { OnOk result (lines.new.items ≡ lines.old.items ++ effect.unmet_lines self.now.core ((name.now, value.now) ∷ [])) }
        ensures refused { IfErr result (IsFaultFor
            (given_refusal none_at (letters_given self.now.core.circuit self.now.core.vectors (name.now, value.now)))) }
    {
        let pairs = pairs_given(self.alloc, &self.circuit, &self.vectors, name, value)?;
        let line = self.unmet(name, &pairs)?;
        put_line(line, lines)?;
        Ok(())
    }

    // The line of a name whose nodes are given these letters, if one of them isn't met.
    fn unmet(&self, name: &[u8], pairs: &[(usize, Letter)]) -> Result<Option<UnmetLine>, NoMemory>
        requires { All (λ pair. pair.0 < nodes self.now.core.circuit.graph) pairs.now }
        ensures { IfOk result (λ found. found ≡ effect.unmet_by self.now.core name.now pairs.now) }
    {
        let state = self.stage.column();
        let met = are_met(state, pairs);
        if met {
            return Ok(None);
        }
        let name = Name::from_slice(self.alloc, name)?;
        let want = wanted(self.alloc, pairs)?;
        let got = present(self.alloc, state, pairs)?;
        let n = self.count;
        Ok(Some(UnmetLine { name, want, got, n }))
    }

    // `show`: tells the line of each of these names.
    fn show<L: Lines>(&mut self, names: &NameList, out: &mut L) -> Result<(), ApplyFault>
        ensures obeys { (texts : List GroupTextData) → ObeysOn L.hear L.part M.did self.old (family.Tell (asked.Show names.now)) self.new
            (L.heard out.old) (L.heard out.new) texts texts (L.refusals out.old) (L.refusals out.new) result }
        ensures faults { L.faults out.new ≡ faults_applied (L.faults out.old) result }
    {
        let (circuit, vectors) = (&self.circuit, &self.vectors);
        if let Some(refusal) = refusals::known_refusal(circuit, vectors, names.items()) {
            return Err(ApplyFault::Refused(refusal));
        }
        let most = longest_list(circuit, vectors, names.items());
        let mut room = WaveRoom::new(self.alloc, most)?;
        out.reserve(COLUMN_ROOM + (SHOW_LINE_ROOM + (longest_shown(names.items()) + most)))?;
        self.tell_shown(names.items(), &mut room, out)
    }

    // Tells the line of each of these names.
    fn tell_shown<L: Lines>(
        &self,
        names: &[Name],
        values: &mut WaveRoom,
        out: &mut L,
    ) -> Result<(), ApplyFault>
        requires short { AreShortLists self.now.core.circuit self.now.core.vectors values.old names.now }
        requires room { AreInRoom (L.room out.old) (map (effect.shown_line self.now.core) names.now) }
        ensures sent { Sent L.hear L.part (L.heard out.old) (L.heard out.new) (map (effect.shown_line self.now.core) names.now) result }
        ensures cause { IfErr result IsSinkFault }
        ensures faults { L.faults out.new ≡ faults_applied (L.faults out.old) result }
        ensures refusals { L.refusals out.new ≡ refusals_sent (L.refusals out.old) result }
    {
        for name in names {
            self.tell_name(name.items(), values, out)?;
        }
        Ok(())
    }

    // Tells the line of a name.
    fn tell_name<L: Lines>(
        &self,
        name: &[u8],
        values: &mut WaveRoom,
        out: &mut L,
    ) -> Result<(), ApplyFault>
        requires short { length (nodes_named self.now.core.circuit self.now.core.vectors name.now) ≤ values.old }
        requires room { room_of (effect.shown_line self.now.core name.now) ≤ L.room out.old }
        ensures short { values.new ≡ values.old }
        ensures room { L.room out.new ≡ L.room out.old }
        ensures sent { Sent L.hear L.part (L.heard out.old) (L.heard out.new) (effect.shown_line self.now.core name.now ∷ []) result }
        ensures cause { IfErr result IsSinkFault }
        ensures faults { L.faults out.new ≡ faults_applied (L.faults out.old) result }
        ensures refusals { L.refusals out.new ≡ refusals_sent (L.refusals out.old) result }
    {
        let state = self.stage.column();
        match self.vectors.named(&self.circuit, name) {
            Named::Node(node) => values.show(name, state, &[node], out),
            Named::Vector(nodes) => values.show(name, state, nodes, out),
            Named::Nothing => values.show(name, state, &[], out),
        }
    }
}

// Puts a line behind others, if there is one.
fn put_line(line: Option<UnmetLine>, lines: &mut Vec<UnmetLine>) -> Result<(), NoMemory>
    ensures { OnOk result (lines.new.items ≡ lines.old.items ++ cons_option line []) }
{
    if let Some(line) = line {
        lines.push(line).map_err(AllocError::from)?;
    }
    Ok(())
}

// Whether each of these letters is met by its node's state.
fn are_met(state: &[Tern], pairs: &[(usize, Letter)]) -> bool
    requires { All (λ pair. pair.0 < length state.now) pairs.now }
    ensures { result ≡ list_all (λ pair. effect.is_met pair.1 (state_at state.now pair.0)) pairs.now }
{
    for (node, letter) in pairs {
        if !is_met(*letter, state[*node]) {
            return false;
        }
    }
    true
}

// Whether the letter is met by the state.
fn is_met(letter: Letter, got: Tern) -> bool
    ensures { result ≡ effect.is_met letter got }
{
    match letter {
        Some(want) => got == want,
        None => true,
    }
}

// The letters of these nodes.
fn wanted(alloc: Global, pairs: &[(usize, Letter)]) -> Result<Vec<Letter>, NoMemory>
    ensures items { IfOk result (λ letters. letters.items ≡ map (λ pair. pair.1) pairs.now) }
    ensures few { IfOk result (λ letters. length letters.items < 2 ^ 60) }
{
    let mut letters = Vec::with_capacity(alloc, pairs.len())?;
    for (_, letter) in pairs {
        letters.push_reserved(*letter);
    }
    Ok(letters)
}

// The states of these nodes.
fn present(alloc: Global, state: &[Tern], pairs: &[(usize, Letter)]) -> Result<Vec<Tern>, NoMemory>
    requires { All (λ pair. pair.0 < length state.now) pairs.now }
    ensures items { IfOk result (λ states. states.items ≡ map (λ pair. state_at state.now pair.0) pairs.now) }
    ensures few { IfOk result (λ states. length states.items < 2 ^ 60) }
{
    let mut states = Vec::with_capacity(alloc, pairs.len())?;
    for (node, _) in pairs {
        states.push_reserved(state[*node]);
    }
    Ok(states)
}

// Room for the longest of these lines.
fn room_for(lines: &[UnmetLine]) -> usize
    ensures { AreInRoom result lines.now }
{
    let mut most = 0;
    for line in lines {
        most = most.max(line.room());
    }
    most
}

impl UnmetLine {
    // Room for the line.
    fn room(&self) -> usize
        ensures { room_of self.now ≤ result }
    {
        COLUMN_ROOM
            + (EXPECT_LINE_ROOM + (self.name.items().len() + (self.want.len() + self.got.len())))
    }

    // Tells the line.
    fn tell<L: Lines>(&self, out: &mut L) -> Result<(), ApplyFault>
        requires room { room_of self.now ≤ L.room out.old }
        ensures room { L.room out.new ≡ L.room out.old }
        ensures sent { Sent L.hear L.part (L.heard out.old) (L.heard out.new) (self.now ∷ []) result }
        ensures cause { IfErr result IsSinkFault }
        ensures faults { L.faults out.new ≡ faults_applied (L.faults out.old) result }
        ensures refusals { L.refusals out.new ≡ refusals_sent (L.refusals out.old) result }
    {
        let (name, n) = (self.name.items(), self.n);
        let (want, got) = (&self.want, &self.got);
        tell_line(Line::Unmet { name, want, got, n }, out)
    }
}

// Tells these lines.
fn tell_unmet<L: Lines>(lines: &[UnmetLine], out: &mut L) -> Result<(), ApplyFault>
    requires room { AreInRoom (L.room out.old) lines.now }
    ensures sent { Sent L.hear L.part (L.heard out.old) (L.heard out.new) lines.now result }
    ensures cause { IfErr result IsSinkFault }
    ensures faults { L.faults out.new ≡ faults_applied (L.faults out.old) result }
    ensures refusals { L.refusals out.new ≡ refusals_sent (L.refusals out.old) result }
{
    for line in lines {
        line.tell(out)?;
    }
    Ok(())
}

// The length of the longest of these names.
fn longest_shown(names: &[Name]) -> usize
    ensures longest { All (λ name. length name ≤ result) names.now }
    ensures few { result < 2 ^ 63 }
{
    let mut most = 0;
    for name in names {
        most = most.max(name.items().len());
    }
    most
}

// The most nodes of one of these names.
fn longest_list(circuit: &Circuit, vectors: &Vectors, names: &[Name]) -> usize
    ensures short { AreShortLists circuit.now vectors.now result names.now }
    ensures few { result < 2 ^ 62 }
{
    let mut most = 0;
    for name in names {
        most = most.max(count_of(circuit, vectors, name.items()));
    }
    most
}
