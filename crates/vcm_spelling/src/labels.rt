//! Where labels stand in a statement.

use std::alloc::Global;
use vcm_num::{NoMemory, is, look_up};
use vcm_sentences::{is_name_byte, piece};

/// The longest name.
pub(crate) const LONGEST: usize = 16;

/// What a label names.
#[derive(Clone, Copy)]
pub enum Named {
    Feature,
    Frame,
    Macro,
    Sensor,
    Format,
    /// A jump label.
    Mark,
    /// A variable.
    Variable,
    /// A name in quotes, of a feature or a frame.
    Quoted,
}

/// A label: what it names, and where it stands.
#[derive(Clone, Copy)]
pub(crate) struct LabelSpan {
    pub(crate) named: Named,
    pub(crate) from: usize,
    pub(crate) to: usize,
}

// The letters in front of a label's parenthesis.
const LETTERS: &[(&[u8], Named)] = &[
    (b"F", Named::Feature),
    (b"FA", Named::Feature),
    (b"D", Named::Frame),
    (b"M", Named::Macro),
    (b"S", Named::Sensor),
    (b"SA", Named::Sensor),
    (b"V", Named::Format),
];

// What stands in parentheses behind these bytes, where `is_jump` says whether a jump label may.
fn named_behind(word: &[u8], is_jump: bool) -> Option<Named> {
    if word.is_empty() && is_jump {
        return Some(Named::Mark);
    }
    look_up(LETTERS, word)
}

// A walk over the bytes of a statement.
#[derive(Drop)]
struct Scan {
    labels: Vec<LabelSpan>,
    // Where the word begins that the next byte goes on with.
    word_from: usize,
    // The label that was begun.
    begun: Option<(Named, usize)>,
    is_quoted: bool,
    // Whether a label of a kind that has no other names is open.
    is_passed: bool,
    takes: Takes,
}

/// Which labels are asked for beside those of features, frames and the like.
#[derive(Clone, Copy)]
pub(crate) struct Takes {
    /// Those in quotes.
    pub(crate) quoted: bool,
    /// Jump labels.
    pub(crate) jumps: bool,
    /// Names of more than 16 characters that stand in no label and in no text.
    pub(crate) variables: bool,
}

impl Scan {
    // A quote at this place.
    fn quote(&mut self, at: usize) -> Result<(), NoMemory> {
        if self.is_quoted {
            self.close(at)?;
        } else if self.takes.quoted {
            self.begun = Some((Named::Quoted, at.saturating_add(1)));
        }
        self.is_quoted = !self.is_quoted;
        Ok(())
    }

    // The end of the label that was begun.
    fn close(&mut self, at: usize) -> Result<(), NoMemory> {
        if let Some((named, from)) = self.begun {
            self.labels.push(LabelSpan {
                named,
                from,
                to: at,
            })?;
        }
        self.begun = None;
        self.is_passed = false;
        Ok(())
    }

    // A parenthesis that opens at this place.
    fn open(&mut self, bytes: &[u8], at: usize) {
        let word = piece(bytes, self.word_from, at);
        self.begun = match named_behind(word, self.takes.jumps) {
            Some(named) => Some((named, at.saturating_add(1))),
            None => None,
        };
        self.is_passed = self.begun.is_none() && !word.is_empty() && !is(word, b"ABS");
    }

    // The end of a word at this place, which may be a variable.
    fn end_word(&mut self, at: usize) -> Result<(), NoMemory> {
        let is_free = self.takes.variables && self.begun.is_none() && !self.is_passed;
        if is_free && at.saturating_sub(self.word_from) > LONGEST {
            self.labels.push(LabelSpan {
                named: Named::Variable,
                from: self.word_from,
                to: at,
            })?;
        }
        Ok(())
    }

    // A byte that is no letter, digit or underscore.
    fn sign(&mut self, bytes: &[u8], at: usize, byte: u8) -> Result<(), NoMemory> {
        if byte == b'\'' {
            return self.quote(at);
        }
        if self.is_quoted {
            return Ok(());
        }
        self.end_word(at)?;
        match byte {
            b'(' => self.open(bytes, at),
            b')' => self.close(at)?,
            _ => {}
        }
        Ok(())
    }

    fn byte(&mut self, bytes: &[u8], at: usize, byte: u8) -> Result<(), NoMemory> {
        if is_name_byte(byte) {
            return Ok(());
        }
        self.sign(bytes, at, byte)?;
        if !self.is_quoted {
            self.word_from = at.saturating_add(1);
        }
        Ok(())
    }
}

/// The labels of a statement, in order.
pub(crate) fn labels_of(
    alloc: Global,
    bytes: &[u8],
    takes: Takes,
) -> Result<Vec<LabelSpan>, NoMemory> {
    let mut scan = Scan {
        labels: Vec::new(alloc),
        word_from: 0,
        begun: None,
        is_quoted: false,
        is_passed: false,
        takes,
    };
    for (at, byte) in bytes.iter().enumerate() {
        scan.byte(bytes, at, *byte)?;
    }
    if !scan.is_quoted {
        scan.end_word(bytes.len())?;
    }
    Ok(scan.labels)
}
