//! Numbers in decimal.

ghost use Rattle.std.specs.Prelude.{◌≡◌, ◌≤◌, ℕ, decimal};
ghost use Rattle.std.specs.Char.{is_ascii_digit};
ghost use Rattle.std.specs.List.{list_all};
ghost use Rattle.line_words.specs.Decimals.{decimal_of};

/// The number that a word writes in decimal.
///
/// `None` exactly if the word is empty, has a byte that isn't an ASCII digit, or writes a
/// number past `u64::MAX`. Leading zeros are accepted, a sign isn't.
pub fn decimal(word: &[u8]) -> Option<u64>
    ensures value { result ≡ decimal_of word.now }

    // What prints a number is read as that number.
    ensures printed { (n : ℕ) → n ≤ u64.MAX → word.now ≡ decimal n → result ≡ Some n }
{
    if !all_digits(word) {
        return None;
    }
    match str::from_utf8(word) {
        Ok(text) => text.parse::<u64>().ok(),
        Err(_) => None,
    }
}

/// Whether each byte is an ASCII digit.
pub(crate) fn all_digits(word: &[u8]) -> bool
    ensures { result ≡ list_all is_ascii_digit word.now }
{
    word.iter().all(u8::is_ascii_digit)
}
