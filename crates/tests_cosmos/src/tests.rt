use crate::step_by_program;
use crate::texts::{INVERTER, LIST, RUNS, SCRIPT, SENT};
use cosmos_app::{Status, run};
use machine_stage::MachineStage;
use node_elimination::SymbolicAnalyst;
use ports::{HonestFiles, MemFiles, MemSink};
use std::alloc::Global;
use std::test::Fail;
use ternary::Tern;
use told_lines::Printer;

// These words.
fn words_of(alloc: Global, words: &[&str]) -> Result<Vec<String>, Fail> {
    let mut owned = Vec::new(alloc);
    for word in words {
        owned.push(String::from_str(alloc, word)?)?;
    }
    Ok(owned)
}

// What the names `net`, `script` and `list` hold.
fn table_of(alloc: Global, texts: [&[u8]; 3]) -> Result<Vec<(String, Vec<u8>)>, Fail> {
    let mut table = Vec::new(alloc);
    for (name, text) in ["net", "script", "list"].iter().zip(texts) {
        table.push((String::from_str(alloc, name)?, text.to_vec(alloc)?))?;
    }
    Ok(table)
}

// The status of a run of which this call of the files and this one of the sink fail, and the text that was
// written: the files give five bytes at a time, and the sink takes one.
fn answer(
    alloc: Global,
    words: &[&str],
    texts: [&[u8]; 3],
    fails: (u64, u64),
) -> Result<(Status, MemSink), Fail> {
    let words = words_of(alloc, words)?;
    let table = table_of(alloc, texts)?;
    let mut files = MemFiles::new(alloc, table, Vec::from_slice(alloc, &[fails.0])?, 5);
    let sink = MemSink::new(alloc, Vec::from_slice(alloc, &[fails.1])?, 1);
    let mut out = Printer::new(alloc, sink, false)?;
    let status = run::<MachineStage, _, _, _>(
        alloc,
        &words,
        &mut files,
        &mut out,
        &mut SymbolicAnalyst::new(alloc),
    );
    Ok((status, out.into_sink()))
}

#[test]
fn each_request_has_its_status_and_text(rt: HostRuntime) -> Result<(), Fail> {
    for (words, net, script, status, text) in &RUNS {
        let (found, out) = answer(rt.alloc(), words, [net, script, b""], (0, 0))?;
        assert!(rt; found == *status && out.written() == *text);
    }
    Ok(())
}

#[test]
fn each_port_that_fails_is_the_last(rt: HostRuntime) -> Result<(), Fail> {
    for (words, reads, text) in &SENT {
        for call in 0..*reads {
            let fails = (call + 1, 0);
            let (status, out) = answer(rt.alloc(), words, [INVERTER, SCRIPT, LIST], fails)?;
            assert!(rt; status == Status::ReadFault && out.written().is_empty());
        }
        let past = reads.saturating_add(1);
        for call in 0..text.len() {
            let fails = (past, call as u64 + 1);
            let (status, out) = answer(rt.alloc(), words, [INVERTER, SCRIPT, LIST], fails)?;
            let sent = out.written();
            assert!(rt;
                status == Status::WriteFault && sent.len() == call && text.starts_with(sent)
            );
        }
        let (status, out) = answer(rt.alloc(), words, [INVERTER, SCRIPT, LIST], (past, 0))?;
        assert!(rt; status == Status::Done && out.written() == *text);
    }
    Ok(())
}

// The states of Gnd, of Vdd, of an inverter's input and of its output, before a unit step and after it.
const STEPS: [([Tern; 4], [Tern; 4]); 3] = [
    (
        [Tern::Zero, Tern::One, Tern::Zero, Tern::Unk],
        [Tern::Zero, Tern::One, Tern::Zero, Tern::One],
    ),
    (
        [Tern::Zero, Tern::One, Tern::One, Tern::One],
        [Tern::Zero, Tern::One, Tern::One, Tern::Zero],
    ),
    (
        [Tern::Zero, Tern::One, Tern::Unk, Tern::Zero],
        [Tern::Zero, Tern::One, Tern::Unk, Tern::Unk],
    ),
];

#[test]
fn whoever_has_the_written_text_makes_the_steps(rt: HostRuntime) -> Result<(), Fail> {
    let words = words_of(rt.alloc(), &["compile", "net"])?;
    let net = b"A a input\np a Vdd out\nn a Gnd out\n";
    let mut files = HonestFiles::new(rt.alloc(), table_of(rt.alloc(), [net, b"", b""])?);
    let mut analyst = SymbolicAnalyst::new(rt.alloc());
    for (before, after) in &STEPS {
        let told = step_by_program(rt.alloc(), &words, &mut files, before, &mut analyst)?;
        assert!(rt; told.as_deref() == Some(after.as_slice()));
    }
    Ok(())
}
