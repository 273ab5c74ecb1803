//! The texts that are set for all that follows, and what a command is asked with them.

use std::alloc::Global;
use std::fmt::Write as _;

/// A file of `crates/vcm_cases/data`: its name and its bytes.
#[derive(Drop)]
struct DataFile {
    name: String,
    bytes: Vec<u8>,
}

/// What is set for all that follows.
#[derive(Drop)]
pub(crate) struct Texts {
    pub(crate) alloc: Global,
    pub(crate) part: String,
    pub(crate) probe: String,
    pub(crate) program: String,
    pub(crate) commands: String,
    data: Vec<DataFile>,
}

impl Texts {
    /// Nothing is set yet.
    pub(crate) fn new(alloc: Global) -> Texts {
        Texts {
            alloc,
            part: String::new(alloc),
            probe: String::new(alloc),
            program: String::new(alloc),
            commands: String::new(alloc),
            data: Vec::new(alloc),
        }
    }

    /// Adds a file that launches of the debug adapter open.
    pub(crate) fn add_file(&mut self, name: &str, bytes: Vec<u8>) {
        let file = DataFile {
            name: copied(self.alloc, name),
            bytes,
        };
        let _ = self.data.push(file);
    }

    // The bytes of a file that launches open.
    fn data_file(&self, name: &str) -> Option<&[u8]> {
        for file in &self.data {
            if file.name.as_str() == name {
                return Some(file.bytes.as_slice());
            }
        }
        None
    }

    // The bytes of a file.
    fn file(&self, name: &str) -> Option<&[u8]> {
        match name {
            "t.dmi" | "program" => Some(self.program.as_bytes()),
            "t.toml" | "part.toml" => Some(self.part.as_bytes()),
            "probe.toml" => Some(self.probe.as_bytes()),
            _ => self.data_file(name),
        }
    }
}

// The name of the file that is there besides those of the texts.
const MADE: &str = "made";

/// What a command is asked, and what it finds.
#[derive(Clone, Copy)]
pub(crate) struct Asked<'a> {
    pub(crate) texts: &'a Texts,
    /// The words of the command line, with a blank between two.
    pub(crate) line: &'a str,
    /// The bytes of the file `made`.
    pub(crate) made: &'a [u8],
    /// What stands on standard input.
    pub(crate) input: &'a [u8],
    /// Whether standard input and standard error are a terminal.
    pub(crate) is_typed: bool,
}

impl<'a> Asked<'a> {
    /// The bytes of a file.
    pub(crate) fn file(&self, name: &str) -> Option<&'a [u8]> {
        if name == MADE {
            Some(self.made)
        } else {
            self.texts.file(name)
        }
    }
}

/// The word with this number in a line.
pub(crate) fn word_at(line: &str, number: usize) -> Option<&str> {
    for (place, word) in line.split(' ').enumerate() {
        if place == number {
            return Some(word);
        }
    }
    None
}

/// Adds a piece to a text. Where memory runs out it isn't added: then the answer is another one than is wanted.
pub(crate) fn put(text: &mut String, piece: &str) {
    let _ = text.push_str(piece);
}

/// Adds pieces one after another.
pub(crate) fn put_all(text: &mut String, pieces: &[&str]) {
    for piece in pieces {
        put(text, piece);
    }
}

/// These pieces one after another.
pub(crate) fn joined(alloc: Global, pieces: &[&str]) -> String {
    let mut text = String::new(alloc);
    put_all(&mut text, pieces);
    text
}

/// A text of its own.
pub(crate) fn copied(alloc: Global, text: &str) -> String {
    joined(alloc, &[text])
}

/// The digits of a number.
pub(crate) fn number_text(alloc: Global, number: u64) -> String {
    let mut text = String::new(alloc);
    let _ = write!(text, "{number}");
    text
}

/// What stood there, in whose place there is nothing.
pub(crate) fn taken(alloc: Global, text: &mut String) -> String {
    std::mem::replace(text, String::new(alloc))
}

/// Bytes as a text.
pub(crate) fn text_of(bytes: &[u8]) -> &str {
    std::str::from_utf8(bytes).unwrap_or("no text\n")
}

/// The program with these statements.
pub(crate) fn program_of(alloc: Global, statements: &str) -> String {
    joined(
        alloc,
        &["DMISMN/'T'\nUNITS/MM,ANGDEC\n", statements, "ENDFIL\n"],
    )
}
