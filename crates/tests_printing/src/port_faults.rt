use ports::{
    Files, FilesOver, HonestFiles, HonestSink, MemFiles, MemOpener, MemSink, PortFault, Sink,
    SinkOver, read_front, real_files, real_sink, send,
};
use std::alloc::{AllocError, Global};
use std::io::ErrorKind;
use std::test::Fail;
use table_keys::TableKeys;

// Two entries of one name, of which the first counts, and an empty one.
fn small_table(alloc: Global) -> Result<Vec<(String, Vec<u8>)>, AllocError> {
    let mut table = Vec::new(alloc);
    for (name, bytes) in [("row.net", "n a"), ("row.net", "n b"), ("none", "")] {
        let entry = (
            String::from_str(alloc, name)?,
            Vec::from_slice(alloc, bytes.as_bytes())?,
        );
        table.push(entry)?;
    }
    Ok(table)
}

#[test]
fn a_name_holds_its_first_entry(rt: HostRuntime) -> Result<(), Fail> {
    let rows: [(&str, usize, &[u8]); 6] = [
        ("row.net", 9, b"n a"),
        ("row.net", 3, b"n a"),
        ("row.net", 2, b"n "),
        ("row.net", 0, b""),
        ("none", 9, b""),
        ("absent", 9, b""),
    ];
    let mut files = HonestFiles::new(rt.alloc(), small_table(rt.alloc())?);
    for (name, most, bytes) in rows {
        let read = read_front(rt.alloc(), &mut files, name, most)?;
        assert_eq!(rt; read.as_slice(), bytes, "{name} to {most}");
    }
    Ok(())
}

// So many bytes of the alphabet, over and over.
fn letters(alloc: Global, count: usize) -> Result<Vec<u8>, AllocError> {
    let mut bytes = Vec::new(alloc);
    for place in 0..count {
        bytes.push(b'a' + (place % 26) as u8)?;
    }
    Ok(bytes)
}

#[test]
fn a_long_entry_is_read_in_pieces(rt: HostRuntime) -> Result<(), Fail> {
    let long = letters(rt.alloc(), 200_000)?;
    let mut table = Vec::new(rt.alloc());
    table.push((String::from_str(rt.alloc(), "long")?, long.clone()?))?;
    let mut files = HonestFiles::new(rt.alloc(), table);
    for most in [200_001, 200_000, 131_073, 131_072, 65_536] {
        let read = read_front(rt.alloc(), &mut files, "long", most)?;
        assert_eq!(rt; read.len(), most.min(200_000));
        assert!(rt; read.iter().zip(&long).all(|(got, want)| got == want));
    }
    Ok(())
}

#[test]
fn texts_are_written_one_after_another(rt: HostRuntime) -> Result<(), Fail> {
    let mut out = HonestSink::new(rt.alloc());
    assert_eq!(rt; out.written(), b"".as_slice());
    for text in ["nodes 3\n", "", "names 1\n"] {
        send(&mut out, text.as_bytes())?;
    }
    assert_eq!(rt; out.written(), b"nodes 3\nnames 1\n".as_slice());
    Ok(())
}

#[test]
fn calls_on_files_fail_by_their_number(rt: HostRuntime) -> Result<(), Fail> {
    let fails = vec![in rt.alloc(); 3, 7]?;
    let mut files = MemFiles::new(rt.alloc(), small_table(rt.alloc())?, fails, 1);
    assert_eq!(rt; files.start("row.net"), Ok(()));
    let mut buf = [0; 4];
    let rows = [
        (Ok(1), b'n'),
        (Err(PortFault::Failed), b'n'),
        (Ok(1), b' '),
        (Ok(1), b'a'),
        (Ok(0), b'a'),
        (Err(PortFault::Failed), b'a'),
        (Ok(0), b'a'),
    ];
    for (answer, first) in rows {
        assert_eq!(rt; files.read(&mut []), Ok(0));
        assert_eq!(rt; files.read(&mut buf), answer);
        assert_eq!(rt; buf, [first, 0, 0, 0]);
    }
    assert_eq!(rt; files.start("absent"), Err(PortFault::Failed));
    let read = read_front(rt.alloc(), &mut files, "row.net", 9)?;
    assert_eq!(rt; read.as_slice(), b"n a".as_slice());
    Ok(())
}

#[test]
fn writes_fail_by_their_number(rt: HostRuntime) -> Result<(), Fail> {
    let mut out = MemSink::new(rt.alloc(), vec![in rt.alloc(); 2]?, 1);
    assert_eq!(rt; send(&mut out, b"1 1 01\n"), Err(PortFault::Failed));
    assert_eq!(rt; out.written(), b"1".as_slice());
    assert_eq!(rt; send(&mut out, b" 1 10\n"), Ok(()));
    assert_eq!(rt; out.written(), b"1 1 10\n".as_slice());
    Ok(())
}

#[test]
fn generic_ports_answer_over_memory(rt: HostRuntime) -> Result<(), Fail> {
    let opener = MemOpener::new(rt.alloc(), small_table(rt.alloc())?);
    let mut files = FilesOver::new(rt.alloc(), opener, TableKeys::fixed());
    assert!(rt; files.name().is_none());
    let read = read_front(rt.alloc(), &mut files, "row.net", 2)?;
    assert_eq!(rt; read.as_slice(), b"n ".as_slice());
    assert_eq!(rt; files.start("absent"), Err(PortFault::Failed));
    assert!(rt; files.name().is_some_and(|name| name == "absent"));
    let mut buf = [0; 4];
    assert_eq!(rt; files.read(&mut buf), Ok(1));
    assert_eq!(rt; buf, [b'a', 0, 0, 0]);

    let mut out = SinkOver::new(Vec::new(rt.alloc()));
    assert_eq!(rt; send(&mut out, b"1 1 01\n"), Ok(()));
    assert_eq!(rt; out.outlet().as_slice(), b"1 1 01\n".as_slice());
    Ok(())
}

#[test]
fn real_ports_answer(rt: HostRuntime) -> Result<(), Fail> {
    let mut files = real_files(&rt, TableKeys::fixed());
    assert_eq!(rt; files.read(&mut [0; 4]), Ok(0));
    assert!(rt; files.reason().is_none());
    assert_eq!(rt; files.start("no file of this name"), Err(PortFault::Failed));
    assert!(rt;
        files
            .reason()
            .is_some_and(|reason| reason.kind() == ErrorKind::NotFound)
    );
    let zeros = read_front(rt.alloc(), &mut files, "/dev/zero", 100_000)?;
    assert_eq!(rt; zeros.len(), 100_000);
    let nothing = read_front(rt.alloc(), &mut files, "/dev/null", 100_000)?;
    assert_eq!(rt; nothing.len(), 0);

    let mut out = real_sink(&rt);
    assert_eq!(rt; out.write(b""), Ok(0));
    assert_eq!(rt; send(&mut out, b"sent\n"), Ok(()));
    assert!(rt; out.reason().is_none());
    Ok(())
}
