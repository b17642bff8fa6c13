//! What a word stands for.
ghost use Rattle.std.specs.Prelude.{◌≡◌, ◌⊎◌, ◌<◌, ◌&&◌, ◌++◌, nat_lt, IfErr, IfOk, IsTrue, OnOk};
ghost use Rattle.node_words.specs.Patterns.{matches};
ghost use Rattle.switch_paths.specs.Graphs.{nodes};
ghost use Rattle.node_words.specs.Words as spec;
ghost use Rattle.node_words.specs.Words.{Part};

use crate::MOST_ENTRIES;
use crate::fault::VectorFault;
use crate::patterns::{has_star, matches_name};
use crate::ranges::{Range, first_range};
use crate::vectors::Vectors;
use netlist::{Circuit, RAILS};
use std::alloc::Global;
use ternary::NoMemory;

/// Puts the nodes that a word stands for behind those of a list. The word's ranges may lie this many
/// times one in another.
///
/// At a refusal or lack of memory some of the nodes may stand in the list.
pub(crate) fn read_word(
    alloc: Global,
    circuit: &Circuit,
    vectors: &Vectors,
    left: usize,
    word: &[u8],
    list: &mut Vec<usize>,
) -> Result<(), VectorFault>
    ensures ok { OnOk result
        (spec.with_parts list.old.items (spec.parts circuit.now vectors.now left word.now) ≡ Ok list.new.items) }
    ensures refused { IfErr result (λ fault. (fault ≡ VectorFault.NoMemory)
        ⊎ (spec.with_parts list.old.items (spec.parts circuit.now vectors.now left word.now) ≡ Err fault)) }
{
    let range = match range_of(circuit, vectors, word) {
        Some(range) => range,
        None => return read_plain(alloc, circuit, vectors, word, list),
    };
    if left == 0 {
        return Err(VectorFault::TooMany);
    }
    for place in 0..range.len() {
        let inner = range.word(alloc, place)?;
        read_word(alloc, circuit, vectors, left - 1, &inner, list)?;
    }
    Ok(())
}

// The range of a word that is no name.
fn range_of<'a>(circuit: &Circuit, vectors: &Vectors, word: &'a [u8]) -> Option<Range<'a>>
    ensures { result ≡ spec.range_of circuit.now vectors.now word.now }
{
    if circuit.find(word).is_some() || vectors.nodes(word).is_some() {
        return None;
    }
    first_range(word)
}

// Puts the nodes of a word that has no range, or is a name, behind those of a list.
fn read_plain(
    alloc: Global,
    circuit: &Circuit,
    vectors: &Vectors,
    word: &[u8],
    list: &mut Vec<usize>,
) -> Result<(), VectorFault>
    ensures ok { OnOk result
        (spec.with_part list.old.items (spec.plain circuit.now vectors.now word.now) ≡ Ok list.new.items) }
    ensures refused { IfErr result (λ fault. (fault ≡ VectorFault.NoMemory)
        ⊎ (spec.with_part list.old.items (spec.plain circuit.now vectors.now word.now) ≡ Err fault)) }
{
    if let Some(node) = circuit.find(word) {
        return put(list, &[node]);
    }
    if let Some(nodes) = vectors.nodes(word) {
        return put(list, nodes);
    }
    read_pattern(alloc, circuit, word, list)
}

// Puts the nodes of a pattern, if the word has a `*`, behind those of a list.
fn read_pattern(
    alloc: Global,
    circuit: &Circuit,
    word: &[u8],
    list: &mut Vec<usize>,
) -> Result<(), VectorFault>
    ensures ok { OnOk result
        (spec.with_part list.old.items (spec.by_pattern circuit.now word.now) ≡ Ok list.new.items) }
    ensures refused { IfErr result (λ fault. (fault ≡ VectorFault.NoMemory)
        ⊎ (spec.with_part list.old.items (spec.by_pattern circuit.now word.now) ≡ Err fault)) }
{
    if !has_star(word) {
        return Err(VectorFault::UnknownNode);
    }
    let nodes = matched(alloc, circuit, word)?;
    if nodes.is_empty() {
        return Err(VectorFault::UnknownNode);
    }
    put(list, &nodes)
}

// Puts nodes behind those of a list, if it has room for them.
fn put(list: &mut Vec<usize>, nodes: &[usize]) -> Result<(), VectorFault>
    ensures ok { OnOk result
        (spec.with_part list.old.items (Part.Nodes nodes.now) ≡ Ok list.new.items) }
    ensures refused { IfErr result (λ fault. (fault ≡ VectorFault.NoMemory)
        ⊎ (spec.with_part list.old.items (Part.Nodes nodes.now) ≡ Err fault)) }
{
    if list.len() + nodes.len() > MOST_ENTRIES {
        return Err(VectorFault::TooMany);
    }
    append(list, nodes)?;
    Ok(())
}

// Puts nodes behind those of a list.
fn append(list: &mut Vec<usize>, nodes: &[usize]) -> Result<(), NoMemory>
    ensures { OnOk result (list.new.items ≡ list.old.items ++ nodes.now) }
{
    list.extend_from_slice(nodes)?;
    Ok(())
}

// The nodes but the rails with a name that the pattern matches, by ascending number.
fn matched(alloc: Global, circuit: &Circuit, pattern: &[u8]) -> Result<Vec<usize>, NoMemory>
    ensures { IfOk result (λ list. list.items ≡ spec.matched circuit.now pattern.now) }
{
    let marks = marked(alloc, circuit, pattern)?;
    let mut list = Vec::new(alloc);
    for node in RAILS..marks.len() {
        if marks[node] {
            append(&mut list, &[node])?;
        }
    }
    Ok(list)
}

// For each node whether the pattern matches one of its names.
fn marked(alloc: Global, circuit: &Circuit, pattern: &[u8]) -> Result<Vec<bool>, NoMemory>
    ensures { IfOk result (λ marks. spec.AreMarks circuit.now.names pattern.now (nodes circuit.now.graph) marks.items) }
{
    let mut marks = vec![in alloc; false; circuit.graph().nodes()]?;
    for place in 0..circuit.names() {
        let (name, node) = circuit.name_at(place);
        if is_marked(pattern, name, node, marks.len()) {
            marks[node] = true;
        }
    }
    Ok(marks)
}

// Whether a name marks its node: the pattern matches it, and there are so many nodes.
fn is_marked(pattern: &[u8], name: &[u8], node: usize, count: usize) -> bool
    ensures value { result ≡ (nat_lt node count && matches pattern.now name.now) }
    ensures within { IsTrue result → node < count }
{
    node < count && matches_name(pattern, name)
}
