//! Where a key stands.

use vcm_boxes::ShortName;

/// A key of a part file, and where it stands.
#[derive(Drop)]
pub struct KeyPlace {
    /// The line, counted from 1, or 0 where it isn't known.
    pub line: usize,
    /// The number of the block that the key belongs to, counted from 1, or 0 for a key of the machine.
    pub block: usize,
    /// The key, where it is a word of at most 32 letters, digits, `-` and `_`.
    pub key: Option<ShortName>,
}
