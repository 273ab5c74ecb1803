//! One line of input.

ghost use Rattle.std.specs.Prelude.{◌≡◌, ◌∷◌, [], ◌++◌, take};

use std::marker::Model;

/// So many bytes of a line are kept: those that a command may have, with an ending, and one more.
const ROOM: usize = 258;

/// The first bytes of a line, which take no memory.
#[derive(Drop)]
pub struct InputLine {
    bytes: [u8; ROOM],
    len: usize,
}

impl Model for InputLine {
    ghost use Rattle.std.specs.Prelude.{ℕ, List, take, ◌≤◌};

    ghost Value = { List ℕ };

    ghost view = { λ l. take l.len l.bytes };

    ghost invariant = { λ l. l.len ≤ 258 };
}

impl InputLine {
    // No bytes.
    pub fn new() -> InputLine
        ensures { result ≡ [] }
    {
        InputLine {
            bytes: [0; ROOM],
            len: 0,
        }
    }

    // One more byte; none past the room.
    pub fn push(&mut self, byte: u8)
        ensures { self.new ≡ take 258 (self.old ++ byte ∷ []) }
    {
        if self.len < ROOM {
            self.bytes[self.len] = byte;
            self.len += 1;
        }
    }

    // The bytes that are kept.
    pub fn as_slice(&self) -> &[u8]
        ensures { result.now ≡ self.now }
    {
        &self.bytes[..self.len]
    }
}

/// A line as it was read: its first bytes, whether a line feed ended it, and how many bytes it took.
#[derive(Drop)]
pub struct RawLine {
    pub kept: InputLine,
    pub ended: bool,
    pub used: usize,
}
