use std::test::Fail;
use ternary::Tern;
use vector_values::{Letter, read_value};

// a value, whether `-` may stand in it, and how many nodes it is given to; and the letter of each, if it
// is a value and fits them
type Row = (&'static [u8], bool, usize, Option<&'static [u8]>);

const ROWS: [Row; 24] = [
    (b"%hA", false, 4, Some(b"1010")),
    (b"%h0000C", false, 4, Some(b"1100")),
    (b"%hf", false, 6, Some(b"001111")),
    (b"%h3", true, 2, Some(b"11")),
    (b"%h5", false, 2, None),
    (b"%h", false, 4, None),
    (b"%H1", false, 4, None),
    (b"%h5-", true, 8, None),
    (b"%d6", false, 4, Some(b"0110")),
    (b"%d0015", false, 4, Some(b"1111")),
    (b"%d2", true, 2, Some(b"10")),
    (b"%d16", false, 4, None),
    (b"%d18446744073709551615", false, 4, None),
    (b"%d18446744073709551616", false, 65, None),
    (b"%dx", false, 4, None),
    (b"%d", false, 4, None),
    (
        b"%d18446744073709551615",
        false,
        65,
        Some(b"01111111111111111111111111111111111111111111111111111111111111111"),
    ),
    (b"01xX", false, 4, Some(b"01XX")),
    (b"1", false, 4, Some(b"1111")),
    (b"101", false, 4, None),
    (b"-", true, 2, Some(b"--")),
    (b"0-", true, 2, Some(b"0-")),
    (b"-", false, 4, None),
    (b"", true, 4, None),
];

#[test]
fn values_give_letters_where_they_fit(rt: HostRuntime) -> Result<(), Fail> {
    for (text, dashes, count, wanted) in &ROWS {
        let letters = match read_value(rt.alloc(), text, *dashes)? {
            Some(value) => value.letters(rt.alloc(), *count)?,
            None => None,
        };
        match (letters, *wanted) {
            (Some(letters), Some(wanted)) => assert!(rt; are_written(&letters, wanted)),
            (None, None) => {}
            _ => panic!(rt; "a value that fits, or doesn't"),
        }
    }
    Ok(())
}

// Whether these are the letters.
fn are_written(letters: &[Letter], wanted: &[u8]) -> bool {
    letters.len() == wanted.len()
        && letters
            .iter()
            .zip(wanted)
            .all(|(letter, byte)| byte_of(*letter) == *byte)
}

// The byte of a letter.
fn byte_of(letter: Letter) -> u8 {
    letter.map_or(b'-', Tern::letter)
}
