//! Edits of a transistor that leave its terminals.

use switch_paths::SwitchKind;

/// An edit of a transistor that leaves its terminals.
pub enum SwitchEdit {
    /// It is removed.
    Removal,
    /// It gets this strength.
    Strength(u64),
    /// It gets this kind.
    Kind(SwitchKind),
}
