//! The readers of a line of a netlist, and of each kind of record.

ghost use Rattle.std.specs.Prelude.{◌≡◌, ◌<◌, ◌≤◌, ◌+◌, ◌*◌, ◌^◌, false, length, Ok, Err, Some, None, IfOk, IfErr, IfSome, OnOk};
ghost use Rattle.switch_paths.specs.Graphs.{nodes};
ghost use Rattle.netlist.specs.Words.{rails_alone, node_named, with_node};
ghost use Rattle.sim_read.specs.Words.{all_added, with_line, rails_draft, sized, with_mark, IsAccepted, IsFault};
ghost use Rattle.sim_read.specs.Header as header;
ghost use Rattle.sim_read.specs.Meaning as spec;

use crate::fault::{LineStop, NetWhat, edit_stop};
use crate::header::{HEADER_LINE, MOST_THRESHOLDS, is_header, is_second, thresholds_of};
use crate::items::{Setting, setting_by_words, strength_by_words};
use crate::records::{Record, record_named};
use crate::sizing::size_nodes;
use crate::sums::Sums;
use line_words::{LineFault, MOST_THOUSANDTHS, Words, check_line, is_comment, thousandths, words};
use netlist::{Circuit, RAILS, usual_strength};
use std::alloc::Global;
use std::marker::Model;
use strength_order::Profile;
use switch_paths::SwitchKind;
use table_keys::TableKeys;
use ternary::{NoMemory, Unmade};

/// What the lines of a netlist gave so far.
#[derive(Drop)]
pub(crate) struct Draft {
    circuit: Circuit,
    thresholds: Vec<u64>,
    sums: Sums,
    // of each node whether an item set something at it, as far as one did
    marks: Vec<bool>,
}

impl Model for Draft {
    ghost use Rattle.std.specs.Prelude.{◌≤◌, length};
    ghost use Rattle.sim_read.specs.Drafts.{DraftData};
    ghost use Rattle.sim_read.specs.declared.header.TheConstants.{MOST_THRESHOLDS};

    ghost Value = { DraftData };

    ghost view = { λ draft. record {
      circuit = draft.circuit;
      thresholds = draft.thresholds.items;
      sums = draft.sums;
      marks = draft.marks.items;
    } };

    ghost invariant = { λ draft. length draft.thresholds.items ≤ MOST_THRESHOLDS };
}

impl Draft {
    /// What is there before the first line. Names are hashed from these keys.
    pub(crate) fn new(alloc: Global, keys: TableKeys) -> Result<Draft, NoMemory>
        ensures { IfOk result (λ draft. draft ≡ rails_draft) }
    {
        Ok(Draft {
            circuit: Circuit::with_keys(alloc, Profile::One, keys)?,
            thresholds: Vec::new(alloc),
            sums: Sums::new(alloc, keys),
            marks: Vec::new(alloc),
        })
    }

    /// The circuit that the lines gave, in profile 2 after the sizing.
    pub(crate) fn into_circuit(self) -> Result<Circuit, NoMemory>
        requires { all_added self.sums < 2 ^ 64 }
        ensures { IfOk result (λ circuit. circuit ≡ sized self) }
    {
        let Draft {
            mut circuit,
            thresholds,
            sums,
            marks,
        } = self;
        match circuit.profile() {
            Profile::One => {}
            Profile::Two => size_nodes(
                *thresholds.allocator(),
                &mut circuit,
                &thresholds,
                &sums,
                &marks,
            )?,
        }
        Ok(circuit)
    }

    // Makes the circuit the rails alone in profile 2, with these thresholds.
    fn begin_second(&mut self, thresholds: Vec<u64>) -> Result<(), NoMemory>
        requires { length thresholds.items ≤ MOST_THRESHOLDS }
        ensures ok { OnOk result (self.new
            ≡ record self.old { circuit = rails_alone Profile.Two; thresholds = thresholds.items }) }
        ensures sums { self.new.sums ≡ self.old.sums }
    {
        let keys = self.circuit.keys();
        self.circuit = Circuit::with_keys(*thresholds.allocator(), Profile::Two, keys)?;
        self.thresholds = thresholds;
        Ok(())
    }

    // Adds the capacitance of a line, by the words after its first.
    fn add_capacitance(&mut self, mut words: Words<'_>) -> Result<(), NoMemory>
        requires { all_added self.old.sums + 2 * MOST_THOUSANDTHS < 2 ^ 64 }
        ensures ok { OnOk result (self.new ≡ record self.old { sums = with_line self.old.sums words.entry }) }
        ensures bound { 4 * all_added self.new.sums ≤ 4 * all_added self.old.sums + 2 * MOST_THOUSANDTHS * (1 + length words.entry) }
    {
        let (Some(first), Some(second), Some(value)) = (words.next(), words.next(), words.next())
        else {
            return Ok(());
        };
        match thousandths(value) {
            Some(more) => self.sums.add_both(first, second, more),
            None => Ok(()),
        }
    }

    // Marks a node as one at which an item set something.
    fn mark(&mut self, node: usize) -> Result<(), NoMemory>
        requires { node < nodes self.old.circuit.graph }
        ensures ok { OnOk result (self.new ≡ record self.old { marks = with_mark self.old.marks (Some node) }) }
        ensures sums { self.new.sums ≡ self.old.sums }
    {
        // The call is for the proof alone: the number of a node has room for one more.
        let _ = self.circuit.graph().nodes();
        if self.marks.len() <= node {
            self.marks.resize(node + 1, false)?;
        }
        self.marks[node] = true;
        Ok(())
    }
}

/// Reads one line, with this number, into the draft.
///
/// The first of these causes wins: the line is too long; it has a bad byte; line 1 names a format
/// that isn't known; it says profile 2 with thresholds that are none; its first word begins no
/// record; it has too few words; a strength or size isn't accepted; then what the edit itself
/// refuses.
pub(crate) fn read_line(draft: &mut Draft, number: u64, line: &[u8]) -> Result<(), LineStop>
    requires { all_added draft.old.sums + 2 * MOST_THOUSANDTHS < 2 ^ 64 }
    ensures ok { OnOk result (spec.line_meaning None draft.old (number, line.now) ≡ Ok draft.new) }
    ensures refused { IfErr result (IsFault (spec.line_meaning None draft.old (number, line.now))) }

    // What a line adds is bounded by its bytes, and an LF.
    ensures bound { 4 * all_added draft.new.sums ≤ 4 * all_added draft.old.sums + MOST_THOUSANDTHS * (1 + length line.now) }
{
    match check_line(line) {
        Ok(()) => read_checked(draft, number, line),
        Err(LineFault::TooLong) => refuse(NetWhat::LineTooLong),
        Err(LineFault::BadByte) => refuse(NetWhat::BadByte),
    }
}

// Reads a line that has no fault as a line.
fn read_checked(draft: &mut Draft, number: u64, line: &[u8]) -> Result<(), LineStop>
    requires { all_added draft.old.sums + 2 * MOST_THOUSANDTHS < 2 ^ 64 }
    ensures ok { OnOk result
        (spec.checked_meaning draft.old (number, line.now) None ≡ Ok draft.new) }
    ensures refused { IfErr result (IsFault (spec.checked_meaning draft.old (number, line.now) None)) }
    ensures bound { 4 * all_added draft.new.sums ≤ 4 * all_added draft.old.sums + MOST_THOUSANDTHS * (1 + length line.now) }
{
    if !is_comment(line) {
        return read_words(draft, words(line));
    }
    if number == HEADER_LINE {
        return read_header(draft, line);
    }
    Ok(())
}

// Reads the header.
fn read_header(draft: &mut Draft, line: &[u8]) -> Result<(), LineStop>
    ensures ok { OnOk result (spec.comment_meaning draft.old (HEADER_LINE, line.now) ≡ Ok draft.new) }
    ensures refused { IfErr result (IsFault (spec.comment_meaning draft.old (HEADER_LINE, line.now))) }
    ensures sums { draft.new.sums ≡ draft.old.sums }
{
    if !is_header(line) {
        return refuse(NetWhat::Format);
    }
    if !is_second(line) {
        return Ok(());
    }
    read_second(draft, line)
}

// Reads what a header in profile 2 says.
fn read_second(draft: &mut Draft, line: &[u8]) -> Result<(), LineStop>
    ensures ok { OnOk result
        (spec.second_meaning draft.old (header.thresholds_of (header.comment_words line.now)) ≡ Ok draft.new) }
    ensures refused { IfErr result
        (IsFault (spec.second_meaning draft.old (header.thresholds_of (header.comment_words line.now)))) }
    ensures sums { draft.new.sums ≡ draft.old.sums }
{
    match thresholds_of(*draft.thresholds.allocator(), line)? {
        Some(thresholds) => Ok(draft.begin_second(thresholds)?),
        None => refuse(NetWhat::BadCaps),
    }
}

// Reads the words of a line.
fn read_words(draft: &mut Draft, mut words: Words<'_>) -> Result<(), LineStop>
    requires { all_added draft.old.sums + 2 * MOST_THOUSANDTHS < 2 ^ 64 }
    ensures ok { OnOk result (spec.words_meaning draft.old words.entry ≡ Ok draft.new) }
    ensures refused { IfErr result (IsFault (spec.words_meaning draft.old words.entry)) }
    ensures bound { 4 * all_added draft.new.sums ≤ 4 * all_added draft.old.sums + 2 * MOST_THOUSANDTHS * length words.entry }
{
    let Some(first) = words.next() else {
        return Ok(());
    };
    match record_named(first) {
        Some(begun) => read_record(draft, begun, words),
        None => refuse(NetWhat::BadRecord),
    }
}

// Reads a record, by the words after its first, into the draft.
fn read_record(draft: &mut Draft, begun: Record, words: Words<'_>) -> Result<(), LineStop>
    requires { all_added draft.old.sums + 2 * MOST_THOUSANDTHS < 2 ^ 64 }
    ensures ok { OnOk result (spec.known_meaning draft.old (Some begun) words.entry ≡ Ok draft.new) }
    ensures refused { IfErr result (IsFault (spec.known_meaning draft.old (Some begun) words.entry)) }
    ensures bound { 4 * all_added draft.new.sums ≤ 4 * all_added draft.old.sums + 2 * MOST_THOUSANDTHS * (1 + length words.entry) }
{
    match begun {
        Record::Transistor(kind) => read_transistor(&mut draft.circuit, kind, words),
        Record::Alias => read_alias(&mut draft.circuit, words),
        Record::Attributes => read_set(draft, words),
        Record::Capacitance => read_capacitance(draft, words),
        Record::Passed => Ok(()),
    }
}

// Reads a capacitance, by the words after its first, which profile 1 passes.
fn read_capacitance(draft: &mut Draft, words: Words<'_>) -> Result<(), LineStop>
    requires { all_added draft.old.sums + 2 * MOST_THOUSANDTHS < 2 ^ 64 }
    ensures ok { OnOk result (draft.new ≡ record draft.old {
      sums = spec.with_capacitance draft.old.circuit.profile draft.old.sums words.entry;
    }) }
    ensures refused { IfErr result (λ stop. stop ≡ Unmade.NoMemory) }
    ensures bound { 4 * all_added draft.new.sums ≤ 4 * all_added draft.old.sums + 2 * MOST_THOUSANDTHS * (1 + length words.entry) }
{
    match draft.circuit.profile() {
        Profile::One => Ok(()),
        Profile::Two => Ok(draft.add_capacitance(words)?),
    }
}

// Reads the attributes of a node, by the words after the line's first, and marks the node if they set something.
fn read_set(draft: &mut Draft, words: Words<'_>) -> Result<(), LineStop>
    ensures ok { OnOk result (spec.known_meaning draft.old (Some Record.Attributes) words.entry ≡ Ok draft.new) }
    ensures refused { IfErr result
        (IsFault (spec.known_meaning draft.old (Some Record.Attributes) words.entry)) }
    ensures sums { draft.new.sums ≡ draft.old.sums }
{
    match read_attributes(&mut draft.circuit, words)? {
        Some(node) => Ok(draft.mark(node)?),
        None => Ok(()),
    }
}

// Reads a transistor, by the words after its kind.
fn read_transistor(
    circuit: &mut Circuit,
    kind: SwitchKind,
    mut words: Words<'_>,
) -> Result<(), LineStop>
    ensures ok { OnOk result
        (spec.record_meaning circuit.old (Record.Transistor kind) words.entry ≡ Ok circuit.new) }
    ensures refused { IfErr result
        (IsFault (spec.record_meaning circuit.old (Record.Transistor kind) words.entry)) }
{
    let (Some(gate), Some(source), Some(drain)) = (words.next(), words.next(), words.next()) else {
        return refuse(NetWhat::FewWords);
    };
    match strength_by_words(circuit.profile(), usual_strength(kind), words) {
        Some(strength) => add_transistor(circuit, kind, strength, gate, source, drain),
        None => refuse(NetWhat::BadStrength),
    }
}

// Adds a transistor between these names, of this strength.
fn add_transistor(
    circuit: &mut Circuit,
    kind: SwitchKind,
    strength: u64,
    gate: &[u8],
    source: &[u8],
    drain: &[u8],
) -> Result<(), LineStop>
    ensures ok { OnOk result
        (spec.transistor_meaning circuit.old kind gate.now source.now drain.now (Some strength) ≡ Ok circuit.new) }
    ensures refused { IfErr result
        (IsFault (spec.transistor_meaning circuit.old kind gate.now source.now drain.now (Some strength))) }
{
    match circuit.add_switch(kind, strength, gate, source, drain) {
        Ok(_) => Ok(()),
        Err(fault) => Err(edit_stop(fault)),
    }
}

// Reads an alias, by the words after its first.
fn read_alias(circuit: &mut Circuit, mut words: Words<'_>) -> Result<(), LineStop>
    ensures ok { OnOk result (spec.record_meaning circuit.old Record.Alias words.entry ≡ Ok circuit.new) }
    ensures refused { IfErr result (IsFault (spec.record_meaning circuit.old Record.Alias words.entry)) }
{
    let (Some(first), Some(second)) = (words.next(), words.next()) else {
        return refuse(NetWhat::FewWords);
    };
    add_alias(circuit, first, second)
}

// Makes two names names of one node.
fn add_alias(circuit: &mut Circuit, first: &[u8], second: &[u8]) -> Result<(), LineStop>
    ensures ok { OnOk result (spec.alias_meaning circuit.old first.now second.now ≡ Ok circuit.new) }
    ensures refused { IfErr result (IsFault (spec.alias_meaning circuit.old first.now second.now)) }
{
    match circuit.alias(first, second) {
        Ok(()) => Ok(()),
        Err(fault) => Err(edit_stop(fault)),
    }
}

// Reads the attributes of a node, by the words after the line's first, and answers the node if they set something.
fn read_attributes(circuit: &mut Circuit, mut words: Words<'_>) -> Result<Option<usize>, LineStop>
    ensures ok { OnOk result
        (spec.record_meaning circuit.old Record.Attributes words.entry ≡ Ok circuit.new) }
    ensures set { IfOk result (λ set. set ≡ spec.node_set circuit.old words.entry) }
    ensures within { IfOk result (λ set. IfSome set (λ node. node < nodes circuit.new.graph)) }
    ensures refused { IfErr result
        (IsFault (spec.record_meaning circuit.old Record.Attributes words.entry)) }
{
    let Some(name) = words.next() else {
        return Err(Unmade::Refused(NetWhat::FewWords));
    };
    if is_rail(circuit, name) {
        return Ok(None);
    }
    match setting_by_words(circuit.profile(), words) {
        Some(setting) => add_attributes(circuit, name, setting),
        None => Err(Unmade::Refused(NetWhat::BadSize)),
    }
}

// Sets this at the node of a name that is no rail's, and answers the node where this is something;
// the node is made if the name is new.
fn add_attributes(
    circuit: &mut Circuit,
    name: &[u8],
    setting: Setting,
) -> Result<Option<usize>, LineStop>
    requires accepted { IsAccepted circuit.old.profile setting }
    requires no_rail { spec.is_rail circuit.old name.now ≡ false }
    ensures ok { OnOk result
        (spec.attributes_meaning circuit.old name.now (Some setting) ≡ Ok circuit.new) }
    ensures set { IfOk result (λ set.
        set ≡ spec.set_at (node_named (with_node circuit.old name.now) name.now) (Some setting)) }
    ensures within { IfOk result (λ set. IfSome set (λ node. node < nodes circuit.new.graph)) }
    ensures refused { IfErr result
        (IsFault (spec.attributes_meaning circuit.old name.now (Some setting))) }
{
    match circuit.node_or_new(name) {
        Ok(node) => Ok(put_setting(circuit, node, setting)),
        Err(fault) => Err(edit_stop(fault)),
    }
}

// Sets this at a node that is no rail, and answers the node where this is something.
fn put_setting(circuit: &mut Circuit, node: usize, setting: Setting) -> Option<usize>
    requires within { node < nodes circuit.old.graph }
    requires no_rail { RAILS ≤ node }
    requires accepted { IsAccepted circuit.old.profile setting }
    ensures set { circuit.new ≡ spec.with_setting circuit.old node setting }
    ensures node { result ≡ spec.set_at node (Some setting) }
    ensures within { nodes circuit.new.graph ≡ nodes circuit.old.graph }
{
    match setting {
        Setting::Unset => return None,
        Setting::Input => circuit.make_input(node).unwrap(),
        Setting::Size(size) => circuit.make_store(node, size).unwrap(),
    }
    Some(node)
}

// Whether the name is a rail's, by a spelling or by an alias.
fn is_rail(circuit: &Circuit, name: &[u8]) -> bool
    ensures { result ≡ spec.is_rail circuit.now name.now }
{
    circuit.find(name).is_some_and(|node| node < RAILS)
}

// Refuses a line.
fn refuse(what: NetWhat) -> Result<(), LineStop>
    ensures { result ≡ Err (Unmade.Refused what) }
{
    Err(Unmade::Refused(what))
}
