//! A statement before it is parsed: its bytes and its words.

ghost use Rattle.std.specs.Prelude.{◌≡◌, IfOk};

use std::alloc::{AllocError, Global};
use std::marker::Model;

/// What a word is made of.
#[derive(Clone, Copy, PartialEq, Eq)]
pub enum WordKind {
    /// Letters, digits and underscores; digits alone too.
    Run,
    /// Digits with a point before, between or behind them.
    Number,
    /// A point, letters, and the point behind them if there is one.
    Dotted,
    /// A text with its apostrophes.
    Quoted,
    /// Any other byte, alone.
    Mark,
}

/// A word of a statement: its bytes are those of the statement's text from `start` to before `end`.
#[derive(Clone, Copy, PartialEq, Eq)]
pub struct Word {
    /// Where its first byte stands in the statement's text, from 0 on.
    pub start: u16,
    /// Where its last byte has been passed.
    pub end: u16,
    /// The line of its first byte, from 1 on.
    pub line: u16,
    /// What it is made of.
    pub kind: WordKind,
}

/// The bytes of a statement: without blanks and comments, its letters in upper case but for those in texts.
#[derive(Drop)]
pub struct OwnedBytes {
    pub(crate) bytes: Vec<u8>,
}

impl Model for OwnedBytes {
    ghost use Rattle.std.specs.Prelude.{List, ℕ};

    ghost Value = { List ℕ };

    ghost view = { λ t. t.bytes.items };
}

impl OwnedBytes {
    /// The bytes as a slice.
    pub fn as_bytes(&self) -> &[u8]
        ensures { result.now ≡ self.now }
    {
        &self.bytes
    }
}

/// The words of a statement, in order.
#[derive(Drop)]
pub struct Words {
    pub(crate) items: Vec<Word>,
}

impl Model for Words {
    ghost use Rattle.std.specs.Prelude.{List};
    ghost use Rattle.vcm_lines.specs.declared.logical.Word.{Word};

    ghost Value = { List Word };

    ghost view = { λ w. w.items.items };
}

impl Words {
    /// A list of these words, in memory of just their size.
    pub(crate) fn copied(alloc: Global, words: &[Word]) -> Result<Words, AllocError>
        ensures { IfOk result (λ w. w ≡ words.now) }
    {
        let mut items = Vec::with_capacity(alloc, words.len())?;
        items.extend_from_slice(words)?;
        Ok(Words { items })
    }

    /// The words as a slice.
    pub fn as_slice(&self) -> &[Word]
        ensures { result.now ≡ self.now }
    {
        &self.items
    }
}

/// A statement before it is parsed.
#[derive(Drop)]
pub struct Logical {
    /// The line that it begins on, from 1 on.
    pub line: u32,
    /// Its bytes.
    pub text: OwnedBytes,
    /// Its words, which are all of its bytes.
    pub words: Words,
}

/// The statements of a text, in order.
#[derive(Drop)]
pub struct LogicalLines {
    pub(crate) items: Vec<Logical>,
}

impl Model for LogicalLines {
    ghost use Rattle.std.specs.Prelude.{List};
    ghost use Rattle.vcm_lines.specs.declared.logical.Logical.{Logical};

    ghost Value = { List Logical };

    ghost view = { λ l. l.items.items };
}

impl LogicalLines {
    /// The statements as a slice.
    pub fn as_slice(&self) -> &[Logical]
        ensures { result.now ≡ self.now }
    {
        &self.items
    }

    /// The statements, on their own.
    pub fn into_items(self) -> Vec<Logical>
        ensures { result.items ≡ self }
    {
        self.items
    }
}
