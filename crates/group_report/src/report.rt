ghost use Rattle.std.specs.Prelude.{◌≡◌, ◌<◌, ◌++◌, map, Some, All, IfOk, OnOk, OnErr};
ghost use Rattle.std.specs.Io.KnownBytes.{append_known};
ghost use Rattle.group_report.specs.Words.{RefusedOnce, faults_after, WritesPart, nodes, AreGroups, IsGroup, id_of, IsId, names_after};
ghost use Rattle.group_report.specs.Words.{called};
ghost use Rattle.group_report.specs.Report.{Reports, line_with, lines_of};
ghost use Rattle.group_report.specs.Noted.{NotesGroup, NotesText, noted_number, number_at};

use channel_groups::{Group, GroupId, Groups};
use group_text::{GroupText, TextFault, text_of};
use indexmap::IndexMap;
use netlist::Circuit;
use ports::{PortFault, Sink, send};
use printed_lines::{GROUP_START_ROOM, LineBuf, group_name, group_start, line_end};
use std::alloc::Global;
use switch_paths::Graph;
use table_keys::TableKeys;
use ternary::NoMemory;

/// Writes the report of a circuit's groups: a line for each, numbered from 1 in order of their
/// least nodes.
///
/// A line says how many members and switches the group has, the number of the first group that has
/// the same text, and the members' names. A group that is too large to have a text has `-` there.
/// After a fault, and after memory ran out, a prefix of the report was written, and nothing after the call
/// that failed. Texts are kept in a table that is hashed with these keys.
pub fn report_groups<S: Sink>(
    alloc: Global,
    circuit: &Circuit,
    keys: TableKeys,
    out: &mut S,
) -> Result<(), PortFault>
    ensures report { Reports circuit.now (S.written out.old) (S.written out.new) result }
    ensures cause { S.faults out.new ≡ faults_after (S.faults out.old) result }
    ensures memory { RefusedOnce (S.refusals out.old) (S.refusals out.new) result }
{
    match groups_of(alloc, circuit.graph()) {
        Ok((groups, ids)) => write_lines(alloc, circuit, &groups, &ids, keys, out),
        Err(want) => Err(memory_fault(want)),
    }
}

// The groups of a graph, and their ids in order.
fn groups_of(alloc: Global, graph: &Graph) -> Result<(Groups, Vec<GroupId>), NoMemory>
    ensures groups { IfOk result (λ found. AreGroups graph.now found.0.groups) }
    ensures ids { IfOk result (λ found. map (λ id. id.node) found.1.items ≡ map id_of found.0.groups) }
    ensures all { IfOk result (λ found. All (λ id. IsId found.0.groups id.node) found.1.items) }
{
    let groups = Groups::of(alloc, graph)?;
    let ids = groups.ids(alloc)?;
    Ok((groups, ids))
}

// Writes the lines of all groups of a circuit.
fn write_lines<S: Sink>(
    alloc: Global,
    circuit: &Circuit,
    groups: &Groups,
    ids: &[GroupId],
    keys: TableKeys,
    out: &mut S,
) -> Result<(), PortFault>
    requires groups { AreGroups circuit.now.graph groups.now.groups }
    requires ids { map (λ id. id.node) ids.now ≡ map id_of groups.now.groups }
    requires all { All (λ id. IsId groups.now.groups id.node) ids.now }
    ensures ok { OnOk result
        (S.written out.new ≡ append_known (S.written out.old) (lines_of circuit.now groups.now.groups)) }
    ensures part { OnErr result
        (WritesPart (S.written out.old) (S.written out.new) (lines_of circuit.now groups.now.groups)) }
    ensures cause { S.faults out.new ≡ faults_after (S.faults out.old) result }
    ensures memory { RefusedOnce (S.refusals out.old) (S.refusals out.new) result }
{
    let mut noted = IndexMap::with_hasher(alloc, keys);
    let mut line = LineBuf::new(alloc, GROUP_START_ROOM).map_err(memory_fault)?;
    for (place, id) in ids.iter().enumerate() {
        let group = groups.group(*id);
        let number = place as u64 + 1;
        make_line(alloc, circuit, group, number, &mut noted, &mut line).map_err(memory_fault)?;
        send(out, line.bytes())?;
    }
    Ok(())
}

// Lack of memory, as the answer of a call that writes.
fn memory_fault(_want: NoMemory) -> PortFault
    ensures { result ≡ PortFault.NoMemory }
{
    PortFault::NoMemory
}

// Makes the line of a group with this number. Its text, if it is new, is noted with the number.
fn make_line(
    alloc: Global,
    circuit: &Circuit,
    group: &Group,
    number: u64,
    noted: &mut IndexMap<GroupText, u64, TableKeys>,
    line: &mut LineBuf,
) -> Result<(), NoMemory>
    requires { IsGroup circuit.now.graph group.now }
    ensures line { OnOk result (line.new.bytes
        ≡ line_with circuit.now number (noted_number circuit.now.graph noted.new group.now) group.now) }
    ensures noted { OnOk result (NotesGroup circuit.now.graph group.now number noted.old noted.new) }
{
    let text = number_text(alloc, circuit.graph(), group, number, noted)?;
    put_line(line, circuit, group, number, text)?;
    Ok(())
}

// The number of the text of a group with this number, None if the group is too large to have a
// text. A text that isn't noted is noted with the group's number.
fn number_text(
    alloc: Global,
    graph: &Graph,
    group: &Group,
    number: u64,
    noted: &mut IndexMap<GroupText, u64, TableKeys>,
) -> Result<Option<u64>, NoMemory>
    requires { IsGroup graph.now group.now }
    ensures value { IfOk result (λ first. first ≡ noted_number graph.now noted.new group.now) }
    ensures noted { OnOk result (NotesGroup graph.now group.now number noted.old noted.new) }
{
    match text_of(alloc, graph, group.members(), group.switches()) {
        Ok((text, _nodes)) => Ok(Some(first_number(noted, text, number)?)),
        Err(TextFault::NoMemory) => Err(NoMemory),
        Err(_too_large) => Ok(None),
    }
}

// The number under which a text is noted. One that isn't is noted with this number.
fn first_number(
    noted: &mut IndexMap<GroupText, u64, TableKeys>,
    text: GroupText,
    number: u64,
) -> Result<u64, NoMemory>
    ensures value { IfOk result (λ first. number_at noted.new text ≡ Some first) }
    ensures noted { OnOk result (NotesText text number noted.old noted.new) }
{
    match noted.get(&text).copied() {
        Some(first) => Ok(first),
        None => match noted.insert(text, number) {
            Ok(_) => Ok(number),
            Err(_) => Err(NoMemory),
        },
    }
}

// Puts the line of a group into the buffer in place of what was there.
fn put_line(
    line: &mut LineBuf,
    circuit: &Circuit,
    group: &Group,
    number: u64,
    text: Option<u64>,
) -> Result<(), NoMemory>
    requires { All (λ member. member < nodes circuit.now.graph) group.now.members }
    ensures { OnOk result (line.new.bytes ≡ line_with circuit.now number text group.now) }
{
    line.clear();
    line.reserve(GROUP_START_ROOM)?;
    let members = group.members();
    group_start(
        line,
        number,
        members.len() as u64,
        group.switches().len() as u64,
        text,
    );
    append_names(line, circuit, members)?;
    line.reserve(1)?;
    line_end(line);
    Ok(())
}

// Appends the names of nodes to a group line.
fn append_names(line: &mut LineBuf, circuit: &Circuit, members: &[usize]) -> Result<(), NoMemory>
    requires { All (λ member. member < nodes circuit.now.graph) members.now }
    ensures { OnOk result
        (line.new.bytes ≡ line.old.bytes ++ names_after (map (called circuit.now) members.now)) }
{
    for &member in members {
        let name = circuit.name_of(member);
        line.reserve(1 + name.len())?;
        group_name(line, name);
    }
    Ok(())
}
