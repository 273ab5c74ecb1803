//! Names that the subset can't have, and those that stand for them.

use crate::labels::{LONGEST, LabelSpan, Named, Takes, labels_of};
use indexmap::{IndexMap, IndexSet};
use std::alloc::Global;
use vcm_num::{NoMemory, write_int};
use vcm_sentences::{MajorWord, Parts, Sentence, fields_of, is_name_byte, parts_of, piece};

/// A name and the one that stands for it.
#[derive(Drop)]
pub struct Renaming {
    /// The letters in front of the parenthesis, nothing for a jump label or a variable.
    pub letters: &'static [u8],
    /// Whether it stands in parentheses, as all but variables do.
    pub is_label: bool,
    pub old: Vec<u8>,
    pub new: Vec<u8>,
}

/// The names of a text that the subset can't have.
#[derive(Drop)]
pub struct Naming<'a> {
    alloc: Global,
    // Each name with its kind in the order in which they come; where it is replaced, the index of its replacement.
    names: IndexMap<(u8, &'a [u8]), Option<usize>>,
    // The names that are taken, each with its kind in front.
    taken: IndexSet<Vec<u8>>,
    // The last number behind each front of names.
    numbers: IndexMap<Vec<u8>, u32>,
    renamings: Vec<Renaming>,
    // Whether a variable has a name of more than 16 characters.
    has_variables: bool,
}

// The letters in front of a label's parenthesis.
fn letters_of(kind: u8) -> &'static [u8] {
    match kind {
        0 => b"F",
        1 => b"D",
        2 => b"M",
        3 => b"S",
        4 => b"V",
        _ => b"",
    }
}

// Whether a name is one that the subset has.
fn is_short(name: &[u8]) -> bool {
    name.len() <= LONGEST && name.iter().all(|byte| is_name_byte(*byte))
}

// The first bytes of a name, each that no name has as an underscore, behind its kind.
fn cut(alloc: Global, kind: u8, name: &[u8], most: usize) -> Result<Vec<u8>, NoMemory> {
    let mut front = Vec::new(alloc);
    front.push(kind)?;
    for byte in name.iter().take(most) {
        front.push(if is_name_byte(*byte) { *byte } else { b'_' })?;
    }
    Ok(front)
}

// A copy of bytes.
fn copied(alloc: Global, bytes: &[u8]) -> Result<Vec<u8>, NoMemory> {
    let mut copy = Vec::new(alloc);
    copy.extend_from_slice(bytes)?;
    Ok(copy)
}

// A name with an underscore and a number of two digits or more behind it, 16 bytes at most.
fn numbered(alloc: Global, kind: u8, name: &[u8], number: u32) -> Result<Vec<u8>, NoMemory> {
    let room = if number < 100 {
        13
    } else if number < 1000 {
        12
    } else if number < 10_000 {
        11
    } else {
        10
    };
    let mut new = cut(alloc, kind, name, room)?;
    new.push(b'_')?;
    if number < 10 {
        new.push(b'0')?;
    }
    write_int(i64::from(number), &mut new)?;
    Ok(new)
}

impl<'a> Naming<'a> {
    // Notes the name of a label.
    fn note(&mut self, named: Named, name: &'a [u8]) -> Result<(), NoMemory> {
        let kind = named as u8;
        if matches!(named, Named::Quoted) || name.is_empty() {
            return Ok(());
        }
        if !self.names.contains_key(&(kind, name)) {
            self.names.insert((kind, name), None)?;
        }
        if is_short(name) {
            let key = cut(self.alloc, kind, name, LONGEST)?;
            self.taken.insert(key)?;
        }
        Ok(())
    }

    // Notes the names of a statement.
    fn note_statement(&mut self, bytes: &'a [u8]) -> Result<(), NoMemory> {
        let labels = labels_of(self.alloc, bytes, takes_of(bytes, false, false))?;
        for label in &labels {
            self.note(label.named, piece(bytes, label.from, label.to))?;
        }
        Ok(())
    }

    // Notes a variable.
    fn note_variable(&mut self, name: &'a [u8]) -> Result<(), NoMemory> {
        self.has_variables = self.has_variables || name.len() > LONGEST;
        self.note(Named::Variable, name)
    }

    // Notes the variables that a statement declares, or gives a value.
    fn note_variables(&mut self, parts: Parts<'a>) -> Result<(), NoMemory> {
        if parts.kind.is_empty() && !parts.title.is_empty() && !parts.spelled.is_empty() {
            self.note_variable(parts.title)?;
        }
        if !matches!(parts.word, MajorWord::Declare | MajorWord::Macro) {
            return Ok(());
        }
        let fields = fields_of(self.alloc, parts.rest)?;
        for field in &fields {
            if field.iter().all(|byte| is_name_byte(*byte)) {
                self.note_variable(field)?;
            }
        }
        Ok(())
    }

    // Takes a name with its kind in front, if it is free.
    fn takes(&mut self, key: &[u8]) -> Result<bool, NoMemory> {
        let own = copied(self.alloc, key)?;
        Ok(self.taken.insert(own)?)
    }

    // The first number that is free behind the front of a name, from the one after the last.
    fn number_behind(&mut self, kind: u8, name: &[u8]) -> Result<Vec<u8>, NoMemory> {
        let front = cut(self.alloc, kind, name, 10)?;
        let last = self.numbers.get(&front).copied().unwrap_or(0);
        let mut number = last;
        let mut new = Vec::new(self.alloc);
        for _ in 0..20_000 {
            number = number.saturating_add(1);
            new = numbered(self.alloc, kind, name, number)?;
            if self.takes(new.as_slice())? {
                break;
            }
        }
        self.numbers.insert(front, number)?;
        Ok(new)
    }

    /// A feature of a new name that begins like this one.
    ///
    /// # Errors
    ///
    /// Out of memory.
    pub fn new_feature(&mut self, name: &[u8]) -> Result<Vec<u8>, NoMemory> {
        let key = self.replacement(Named::Feature as u8, name)?;
        copied(self.alloc, piece(key.as_slice(), 1, key.len()))
    }

    // A name that stands for this one, with its kind in front.
    fn replacement(&mut self, kind: u8, name: &[u8]) -> Result<Vec<u8>, NoMemory> {
        let front = cut(self.alloc, kind, name, LONGEST)?;
        if self.takes(front.as_slice())? {
            return Ok(front);
        }
        self.number_behind(kind, name)
    }

    // Replaces the name at an index, if it has to be.
    fn replace(&mut self, index: usize) -> Result<(), NoMemory> {
        let Some((key, _)) = self.names.get_index(index) else {
            return Ok(());
        };
        let (kind, name) = *key;
        if is_short(name) {
            return Ok(());
        }
        let new = self.replacement(kind, name)?;
        let place = self.renamings.len();
        self.renamings.push(Renaming {
            letters: letters_of(kind),
            is_label: kind != Named::Variable as u8,
            old: copied(self.alloc, name)?,
            new: copied(self.alloc, piece(new.as_slice(), 1, new.len()))?,
        })?;
        self.names.insert((kind, name), Some(place))?;
        Ok(())
    }

    /// The names of statements, and those that stand for them.
    ///
    /// # Errors
    ///
    /// Out of memory.
    pub fn of(alloc: Global, sentences: &'a [Sentence]) -> Result<Naming<'a>, NoMemory> {
        let mut naming = Naming {
            alloc,
            names: IndexMap::new(alloc),
            taken: IndexSet::new(alloc),
            numbers: IndexMap::new(alloc),
            renamings: Vec::new(alloc),
            has_variables: false,
        };
        for sentence in sentences {
            naming.note_statement(&sentence.bytes)?;
            naming.note_variables(parts_of(&sentence.bytes))?;
        }
        for index in 0..naming.names.len() {
            naming.replace(index)?;
        }
        Ok(naming)
    }

    // The name that stands for this one, if one does.
    fn new_name(&self, kind: u8, name: &[u8]) -> Option<&[u8]> {
        let index = (*self.names.get(&(kind, name))?)?;
        Some(self.renamings.get(index)?.new.as_slice())
    }

    // The name that stands for a label's, if one does.
    fn new_label(&self, named: Named, name: &[u8]) -> Option<&[u8]> {
        match named {
            Named::Quoted => match self.new_name(Named::Feature as u8, name) {
                Some(new) => Some(new),
                None => self.new_name(Named::Frame as u8, name),
            },
            _ => self.new_name(named as u8, name),
        }
    }

    /// A label of a kind as it is now.
    pub fn label<'b>(&'b self, named: Named, name: &'b [u8]) -> &'b [u8] {
        match self.new_name(named as u8, name) {
            Some(new) => new,
            None => name,
        }
    }

    // Appends the bytes of a statement with the new names for these labels, and says whether there is one.
    fn put(&self, bytes: &[u8], labels: &[LabelSpan], out: &mut Vec<u8>) -> Result<bool, NoMemory> {
        let mut from = 0;
        let mut is_new = false;
        for label in labels {
            if let Some(new) = self.new_label(label.named, piece(bytes, label.from, label.to)) {
                out.extend_from_slice(piece(bytes, from, label.from))?;
                out.extend_from_slice(new)?;
                from = label.to;
                is_new = true;
            }
        }
        out.extend_from_slice(piece(bytes, from, bytes.len()))?;
        Ok(is_new)
    }

    /// The statement with new names, where it has one.
    ///
    /// # Errors
    ///
    /// Out of memory.
    pub fn renamed(&self, bytes: &[u8]) -> Result<Option<Vec<u8>>, NoMemory> {
        if self.renamings.is_empty() {
            return Ok(None);
        }
        let labels = labels_of(
            self.alloc,
            bytes,
            takes_of(bytes, has_names(bytes), self.has_variables),
        )?;
        let mut out = Vec::new(self.alloc);
        if self.put(bytes, labels.as_slice(), &mut out)? {
            Ok(Some(out))
        } else {
            Ok(None)
        }
    }

    /// The names that are replaced, in the order in which they come.
    pub fn into_renamings(self) -> Vec<Renaming> {
        self.renamings
    }
}

// Which labels of a statement are asked for.
fn takes_of(bytes: &[u8], quoted: bool, variables: bool) -> Takes {
    Takes {
        quoted,
        jumps: bytes.starts_with(b"JUMPTO/(") || bytes.starts_with(b"("),
        variables,
    }
}

// Whether names in quotes are those of features and frames there.
fn has_names(bytes: &[u8]) -> bool {
    matches!(parts_of(bytes).word, MajorWord::Call | MajorWord::Macro)
}
