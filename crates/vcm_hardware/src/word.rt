//! Short texts that take no memory.

ghost use Rattle.std.specs.Prelude.{◌≡◌, ◌≤◌, length};

use std::marker::Model;

/// The most bytes of a word.
const LONGEST: usize = 64;

/// A text of at most 64 bytes, which takes no memory. Contracts see it as the list of its bytes.
#[derive(Drop)]
pub struct Word {
    bytes: [u8; LONGEST],
    len: u8,
}

impl Model for Word {
    ghost use Rattle.std.specs.Prelude.{ℕ, List, take, ◌≤◌};

    ghost Value = { List ℕ };

    ghost view = { λ w. take w.len w.bytes };

    ghost invariant = { λ w. w.len ≤ 64 };
}

impl Word {
    // The word with these bytes.
    pub(crate) fn new(bytes: &[u8]) -> Word
        requires { length bytes.now ≤ 64 }
        ensures { result ≡ bytes.now }
    {
        let mut own = [0; LONGEST];
        own[..bytes.len()].copy_from_slice(bytes);
        Word {
            bytes: own,
            len: bytes.len() as u8,
        }
    }

    /// Its bytes.
    pub fn as_bytes(&self) -> &[u8]
        ensures { result.now ≡ self.now }
    {
        &self.bytes[..usize::from(self.len)]
    }
}
