//! Formulas as they are read.

use formulas::{Formula, Part, Sign, read_formula};
use std::alloc::{AllocError, Global};
use std::test::Fail;

// The parts of a formula as a text: names, and the signs behind their operands.
fn parts_text(alloc: Global, formula: &Formula) -> Result<Vec<u8>, AllocError> {
    let mut text = Vec::new(alloc);
    for part in formula.parts() {
        match part {
            Part::Name(name) => text.extend_from_slice(name.items())?,
            Part::Not => text.push(b'!')?,
            Part::Join(Sign::And) => text.push(b'&')?,
            Part::Join(Sign::Differ) => text.push(b'^')?,
            Part::Join(Sign::Or) => text.push(b'|')?,
        }
    }
    Ok(text)
}

// Texts that write formulas, with their parts.
const FORMULAS: [(&[u8], &[u8]); 12] = [
    (b"$a", b"a"),
    (b"$x1.q", b"x1.q"),
    (b"!$a", b"a!"),
    (b"!!$a", b"a!!"),
    (b"$a&$b|$c", b"ab&c|"),
    (b"$a|$b&$c", b"abc&|"),
    (b"$a|$b^$c&!$d", b"abcd!&^|"),
    (b"$a^$b^$c", b"ab^c^"),
    (b"$a^($b^$c)", b"abc^^"),
    (b"!($a&$b)", b"ab&!"),
    (b"!$a&$b", b"a!b&"),
    (b"(($a[3]))", b"a[3]"),
];

// Texts that write none.
const OTHERS: [&[u8]; 18] = [
    b"", b"a", b"$", b"1", b"X", b"$a&", b"&$a", b"$a&1", b"($a", b"$a)", b"()", b"!", b"$a!",
    b"$a$b", b"$a b", b"$a,$b", b"${1}", b"$a&|$b",
];

#[test]
fn signs_bind_by_their_ranks(rt: HostRuntime) -> Result<(), Fail> {
    for (text, parts) in FORMULAS {
        let formula = read_formula(rt.alloc(), text)?.ok_or("no formula")?;
        let told = parts_text(rt.alloc(), &formula)?;
        assert_eq!(rt; told.as_slice(), parts);
    }
    Ok(())
}

#[test]
fn other_texts_are_no_formulas(rt: HostRuntime) -> Result<(), Fail> {
    for text in OTHERS {
        assert!(rt; read_formula(rt.alloc(), text)?.is_none());
    }
    Ok(())
}

#[test]
fn brackets_lie_as_deep_as_a_line_is_long(rt: HostRuntime) -> Result<(), Fail> {
    let mut text = Vec::new(rt.alloc());
    for _bracket in 0..30_000 {
        text.extend_from_slice(b"(")?;
    }
    text.extend_from_slice(b"!!$a")?;
    for _bracket in 0..30_000 {
        text.extend_from_slice(b")")?;
    }
    let formula = read_formula(rt.alloc(), &text)?.ok_or("no formula")?;
    assert_eq!(rt; formula.parts().len(), 3);
    Ok(())
}
