//! Lines of symbolic scripts, as they are read.

use script_lang::ScriptFault;
use std::alloc::Global;
use std::test::Fail;
use symbol_script::{SymbolLine, read_symbol_line};

// What a line asks for, in a word, or the code under which it is refused.
fn asked(alloc: Global, bytes: &[u8], quiet: bool) -> &'static str {
    match read_symbol_line(alloc, bytes, quiet) {
        Ok(Some(SymbolLine::Values(_, _))) => "values",
        Ok(Some(SymbolLine::Names(_))) => "names",
        Ok(Some(SymbolLine::Plain(_))) => "plain",
        Ok(None) => "nothing",
        Err(ScriptFault::LineTooLong) => "L1",
        Err(ScriptFault::BadByte) => "L2",
        Err(ScriptFault::BadCommand) => "S1",
        Err(ScriptFault::FewWords) => "S2",
        Err(ScriptFault::ManyWords) => "S3",
        Err(ScriptFault::BadValue) => "S4",
        Err(ScriptFault::BadNumber) => "S5",
        Err(ScriptFault::NoMemory) => "out of memory",
    }
}

const LINES: [(&[u8], &str); 24] = [
    (b"set a=$x b=1", "values"),
    (b"charge q=!($a&$b)", "values"),
    (b"expect q=$d1,-", "values"),
    (b"variables $a{3:0} $b", "names"),
    (b"let $c $a&$b", "names"),
    (b"vertices 2", "names"),
    (b"phase", "plain"),
    (b"clock phi=0110", "plain"),
    (b"", "nothing"),
    (b"| set a=$", "nothing"),
    (b"report", "S1"),
    (b"keep 3", "S1"),
    (b"wide 300", "S1"),
    (b"set", "S2"),
    (b"variables", "S2"),
    (b"let $c", "S2"),
    (b"let $c $a $b", "S3"),
    (b"vertices 2 3", "S3"),
    (b"set a=$x&", "S4"),
    (b"set q=$d1,-", "S4"),
    (b"let c $a", "S4"),
    (b"let $c $a,$b", "S4"),
    (b"clock phi=$x", "S4"),
    (b"vertices 1", "S5"),
];

#[test]
fn lines_ask_for_values_names_or_plain_commands(rt: HostRuntime) -> Result<(), Fail> {
    for (bytes, word) in LINES {
        assert_eq!(rt; asked(rt.alloc(), bytes, false), word);
    }
    Ok(())
}

// Commands that tell of what is there.
const TELLING: [&[u8]; 3] = [b"expect q=1", b"show q", b"look q"];

#[test]
fn a_quiet_script_has_no_command_that_tells(rt: HostRuntime) -> Result<(), Fail> {
    for bytes in TELLING {
        assert!(rt; asked(rt.alloc(), bytes, false) != "S1");
        assert_eq!(rt; asked(rt.alloc(), bytes, true), "S1");
    }
    assert_eq!(rt; asked(rt.alloc(), b"watch q", true), "plain");
    Ok(())
}
