//! The bytes of formulas.
ghost use Rattle.std.specs.Prelude.{◌≡◌, ◌↔◌, ◌==◌, ◌≤◌, IsTrue};
ghost use Rattle.std.specs.List.{list_all, list_any};
ghost use Rattle.formulas.specs.Bytes as spec;

use crate::formula::Sign;

// The visible bytes that no name has.
const RESERVED: [u8; 11] = *b"!$&(),=^{|}";

/// Whether bytes are a name: one or more that may stand in it.
pub fn is_name(bytes: &[u8]) -> bool
    ensures value { result ≡ spec.is_name bytes.now }
    ensures name { IsTrue result ↔ spec.IsName bytes.now }
{
    !bytes.is_empty() && are_name_bytes(bytes)
}

// Whether all bytes may stand in a name.
fn are_name_bytes(bytes: &[u8]) -> bool
    ensures { result ≡ list_all spec.is_name_byte bytes.now }
{
    bytes.iter().all(|&byte| is_name_byte(byte))
}

/// Whether a byte may stand in a name.
pub(crate) fn is_name_byte(byte: u8) -> bool
    ensures { result ≡ spec.is_name_byte byte }
{
    b'!' <= byte && byte <= b'~' && !is_reserved(byte)
}

// Whether no name has a byte.
fn is_reserved(byte: u8) -> bool
    ensures { result ≡ list_any (λ own. own == byte) spec.reserved }
{
    RESERVED.iter().any(|&own| own == byte)
}

/// The sign of a byte.
pub(crate) fn sign_of(byte: u8) -> Option<Sign>
    ensures { result ≡ spec.sign_of byte }
{
    match byte {
        b'&' => Some(Sign::And),
        b'^' => Some(Sign::Differ),
        b'|' => Some(Sign::Or),
        _ => None,
    }
}

/// How tightly a sign binds, beside 4 for `!`.
pub(crate) fn rank_of(sign: Sign) -> u32
    ensures value { result ≡ spec.rank_of sign }
    ensures most { result ≤ 3 }
{
    match sign {
        Sign::And => 3,
        Sign::Differ => 2,
        Sign::Or => 1,
    }
}
