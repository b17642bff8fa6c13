//! Patterns of names.
ghost use Rattle.std.specs.Prelude.{◌≡◌, ◌↔◌, false, position, IsTrue};
ghost use Rattle.std.specs.List.{list_any};
ghost use Rattle.node_words.specs.Patterns as spec;

/// Whether a pattern matches a name: a `*` matches any bytes, none too, and every other byte itself.
///
/// It takes time by the length of the pattern times that of the name at most: behind a `*` the bytes
/// up to the next one are looked for from left to right, and the first place is as good as any other.
pub fn matches_name(pattern: &[u8], name: &[u8]) -> bool
    ensures value { result ≡ spec.matches pattern.now name.now }
    ensures grammar { IsTrue result ↔ spec.Matches pattern.now name.now }
{
    is_match(pattern, name)
}

// Whether the pattern matches the name.
fn is_match(pattern: &[u8], name: &[u8]) -> bool
    ensures { result ≡ spec.matches pattern.now name.now }
{
    match first_star(pattern) {
        None => pattern == name,
        Some(at) => match name.strip_prefix(&pattern[..at]) {
            Some(rest) => matches_behind(&pattern[at + 1..], rest),
            None => false,
        },
    }
}

/// Whether the word has a `*`.
pub(crate) fn has_star(word: &[u8]) -> bool
    ensures { result ≡ list_any spec.is_star word.now }
{
    word.iter().any(|&byte| byte == b'*')
}

// The place of the first `*`.
fn first_star(pattern: &[u8]) -> Option<usize>
    ensures { result ≡ position spec.is_star pattern.now }
{
    pattern.iter().position(|&byte| byte == b'*')
}

// Whether a `*` and then the pattern match the name.
fn matches_behind(pattern: &[u8], name: &[u8]) -> bool
    ensures { result ≡ spec.behind_some (spec.matches pattern.now) name.now }
{
    let mut pattern = pattern;
    let mut name = name;
    while let Some((next, rest)) = onward(pattern, name) {
        pattern = next;
        name = rest;
    }
    pattern == name
}

// Behind a `*` the pattern and the name that are left to compare, of which one is shorter; or None
// where the pattern matches exactly the name that is equal to it.
fn onward<'a>(pattern: &'a [u8], name: &'a [u8]) -> Option<(&'a [u8], &'a [u8])>
    ensures cases { spec.LeavesAlike pattern.now name.now result }
    ensures shorter { spec.LeavesLess pattern.now name.now result }
{
    match first_star(pattern) {
        Some(at) => match name.strip_prefix(&pattern[..at]) {
            Some(rest) => Some((&pattern[at + 1..], rest)),
            None => without_first(pattern, name),
        },
        None => {
            if pattern == name {
                None
            } else {
                without_first(pattern, name)
            }
        }
    }
}

// The same if the pattern doesn't match the name from its first byte on: the name without that
// byte is left.
fn without_first<'a>(pattern: &'a [u8], name: &'a [u8]) -> Option<(&'a [u8], &'a [u8])>
    requires { spec.matches pattern.now name.now ≡ false }
    ensures cases { spec.LeavesAlike pattern.now name.now result }
    ensures shorter { spec.LeavesLess pattern.now name.now result }
{
    match name {
        [] => None,
        [_, rest @ ..] => Some((pattern, rest)),
    }
}
