//! Values of symbolic scripts, and the names of their lines.

use script_lang::Name;
use std::alloc::Global;
use std::test::Fail;
use symbol_lines::{NameFault, ScriptNames, SymbolValue, read_symbol_value};
use table_keys::TableKeys;

// How many items a value has, 0 for one without formulas, or none if it is none.
fn items_in(alloc: Global, text: &[u8]) -> Result<Option<usize>, ternary::NoMemory> {
    match read_symbol_value(alloc, text, false)? {
        Some(SymbolValue::Plain(_)) => Ok(Some(0)),
        Some(SymbolValue::List(items)) => Ok(Some(items.items().len())),
        None => Ok(None),
    }
}

const VALUES: [(&[u8], Option<usize>); 14] = [
    (b"01X", Some(0)),
    (b"%h5f", Some(0)),
    (b"$a", Some(1)),
    (b"$b{3:0}", Some(4)),
    (b"$w{2:0}&!$r", Some(3)),
    (b"{0:1}", Some(2)),
    (b"1,x,$a|$b", Some(3)),
    (b"$a{1:65536}", Some(65_536)),
    (b"$a{1:65537}", None),
    (b"$a{0:1}{0:1}", None),
    (b"$a,", None),
    (b"$a,01", None),
    (b"1&$a", None),
    (b"-", None),
];

#[test]
fn values_are_letters_numbers_or_lists(rt: HostRuntime) -> Result<(), Fail> {
    for (text, items) in VALUES {
        assert!(rt; items_in(rt.alloc(), text)? == items);
    }
    Ok(())
}

// What a line comes to that uses these names and defines one, in a script whose lines did so before.
#[test]
fn names_are_variables_or_defined(rt: HostRuntime) -> Result<(), Fail> {
    let mut names = ScriptNames::new(rt.alloc(), TableKeys::fixed());
    let (a, b) = (
        Name::from_slice(rt.alloc(), b"a")?,
        Name::from_slice(rt.alloc(), b"b")?,
    );
    let x = Name::from_slice(rt.alloc(), b"x")?;
    let used = vec![in rt.alloc(); a, b]?;
    assert!(rt; names.enter(rt.alloc(), &used, Some(&x)).is_ok());
    assert_eq!(rt; names.variables(), 2);
    assert!(rt; names.enter(rt.alloc(), &used, Some(&x)) == Err(NameFault::NameDefined));
    assert!(rt; names.enter(rt.alloc(), &[], None).is_ok());
    assert_eq!(rt; names.variables(), 2);
    Ok(())
}
