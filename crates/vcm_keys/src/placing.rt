//! The places of keys, line by line.

ghost use Rattle.std.specs.Prelude.{◌≡◌, ◌<◌, ◌≤◌, ◌∷◌, IfOk, OnOk, Some, length};
ghost use Rattle.std.specs.List.{fold};
ghost use Rattle.vcm_num.specs.Lines.{whole_lines};
ghost use Rattle.vcm_keys.specs.Places.{start, is_lost, put, places_with, begun, ended, with_line, places_of, open_line, is_key, block_lines, line_of};

use crate::place::KeyPlace;
use crate::statement::{PartStatement, statement_alone};
use std::alloc::Global;
use std::marker::Model;
use vcm_boxes::ShortName;
use vcm_num::{MOST_BLOCKS, NoMemory, is, whole_line};

/// The most bytes of a key that is told.
const LONGEST: usize = 32;

/// The most lines of a statement, and the line behind the last one that is looked at.
const MOST_LINES: usize = 100;

const LAST_LINE: usize = 1_000_000;

/// What was read of a part file.
#[derive(Drop)]
pub(crate) struct Reader {
    // The keys that stand in what was read, the first one first.
    places: Vec<KeyPlace>,
    // The bytes of the open statement.
    taken: Vec<u8>,
    // The line that it begins on.
    first: usize,
    // The line that comes next.
    line: usize,
    // How many blocks there are.
    blocks: usize,
    // The number of the block that the next keys belong to, 0 for the machine, or none where they are deeper.
    owner: Option<usize>,
}

impl Model for Reader {
    ghost use Rattle.vcm_keys.specs.Places.{Reading};

    ghost Value = { Reading };

    ghost view = { λ r. record { places = r.places.items; taken = r.taken.items; first = r.first; line = r.line; blocks = r.blocks; owner = r.owner } };
}

impl Reader {
    // A reader that has read nothing.
    fn new(alloc: Global) -> Reader
        ensures { result ≡ start }
    {
        Reader {
            places: Vec::new(alloc),
            taken: Vec::new(alloc),
            first: 1,
            line: 1,
            blocks: 0,
            owner: Some(0),
        }
    }

    // Whether nothing more is looked for.
    fn is_lost(&self) -> bool
        ensures { result ≡ is_lost self.now }
    {
        LAST_LINE <= self.line
            || MOST_LINES <= self.line.saturating_sub(self.first)
            || MOST_BLOCKS < self.blocks
    }

    // A key of this block, at the line on which the open statement begins.
    fn put(&mut self, block: usize, key: Option<ShortName>) -> Result<(), NoMemory>
        ensures { OnOk result (self.new ≡ record (self.old) { places = put block key self.old }) }
    {
        let line = self.first;
        self.places.push(KeyPlace { line, block, key })?;
        Ok(())
    }

    // A key of the block that the next keys belong to.
    fn put_own(&mut self, key: Option<ShortName>) -> Result<(), NoMemory>
        ensures { OnOk result (self.new ≡ record (self.old) { places = places_with (PartStatement.Entry key) self.old }) }
    {
        match self.owner {
            Some(block) => self.put(block, key),
            None => Ok(()),
        }
    }

    // The next statement, which begins on the next line.
    fn begin(&mut self, blocks: usize, owner: Option<usize>)
        requires { self.old.line < 1000000 }
        ensures { self.new ≡ begun self.old blocks owner }
    {
        self.taken.clear();
        self.line += 1;
        self.first = self.line;
        self.blocks = blocks;
        self.owner = owner;
    }

    // The end of the open statement, which is this one.
    fn end(&mut self, statement: PartStatement) -> Result<(), NoMemory>
        requires line { self.old.line < 1000000 }
        requires blocks { self.old.blocks ≤ 4096 }
        ensures { OnOk result (self.new ≡ ended self.old (Some statement)) }
    {
        let blocks = self.blocks;
        match statement {
            PartStatement::Blank => {
                let owner = self.owner;
                self.begin(blocks, owner);
                Ok(())
            }
            PartStatement::Entry(key) => {
                let owner = self.owner;
                self.put_own(key)?;
                self.begin(blocks, owner);
                Ok(())
            }
            PartStatement::Block => {
                self.put(0, ShortName::of(LONGEST, b"block"))?;
                self.begin(blocks + 1, Some(blocks + 1));
                Ok(())
            }
            PartStatement::Inside(key) => {
                self.put(blocks, key)?;
                self.begin(blocks, None);
                Ok(())
            }
            PartStatement::Heading(key) => {
                self.put(0, key)?;
                self.begin(blocks, None);
                Ok(())
            }
        }
    }

    // One more line.
    #[tactic(auto, unfolding(crate::specs::Places::with_line))]
    fn read_line(&mut self, alloc: Global, line: &[u8]) -> Result<(), NoMemory>
        ensures { OnOk result (self.new ≡ with_line self.old line.now) }
    {
        if self.is_lost() {
            return Ok(());
        }
        self.taken.extend_from_slice(line)?;
        match statement_alone(alloc, &self.taken)? {
            Some(statement) => self.end(statement),
            None => {
                self.line += 1;
                Ok(())
            }
        }
    }
}

// What was read of a text.
fn read_text(alloc: Global, text: &[u8]) -> Result<Reader, NoMemory>
    ensures { IfOk result (λ r. r ≡ fold with_line start (whole_lines text.now)) }
{
    let mut reader = Reader::new(alloc);
    let mut rest = text;
    while !rest.is_empty() {
        let (line, after) = whole_line(rest);
        reader.read_line(alloc, line)?;
        rest = after;
    }
    Ok(reader)
}

/// The places of all keys of a part file, the first one first. A statement is the fewest lines that are TOML by themselves; a key has the line on
/// which its statement begins. What stands behind a statement of more than 100 lines isn't read.
///
/// # Errors
///
/// Out of memory.
#[tactic(auto, unfolding(crate::specs::Places::places_of))]
pub fn places_of(alloc: Global, text: &[u8]) -> Result<Vec<KeyPlace>, NoMemory>
    ensures { IfOk result (λ v. v.items ≡ places_of text.now) }
{
    let reader = read_text(alloc, text)?;
    Ok(reader.places)
}

/// The line on which a statement begins that neither ends as TOML nor with the lines behind it, if there is one.
///
/// # Errors
///
/// Out of memory.
#[tactic(auto, unfolding(crate::specs::Places::open_line))]
pub fn open_line(alloc: Global, text: &[u8]) -> Result<Option<usize>, NoMemory>
    ensures { IfOk result (λ line. line ≡ open_line text.now) }
{
    let reader = read_text(alloc, text)?;
    if reader.taken.is_empty() {
        Ok(None)
    } else {
        Ok(Some(reader.first))
    }
}

// Whether a key is this one.
fn is_key(word: &[u8], key: &Option<ShortName>) -> bool
    ensures { result ≡ is_key word.now key.now }
{
    match key {
        None => false,
        Some(key) => is(key.as_bytes(), word),
    }
}

/// The lines on which the blocks of these places begin.
///
/// # Errors
///
/// Out of memory.
pub fn block_lines(alloc: Global, places: &[KeyPlace]) -> Result<Vec<usize>, NoMemory>
    ensures { IfOk result (λ v. v.items ≡ block_lines places.now) }
{
    let mut lines = Vec::new(alloc);
    for place in places {
        if place.block == 0 && is_key(b"block", &place.key) {
            lines.push(place.line)?;
        }
    }
    Ok(lines)
}

/// The first line of a key of the machine, which is block 0, or of a block; 0 where it isn't known.
pub fn line_of(block: usize, key: &[u8], places: &[KeyPlace]) -> usize
    ensures { result ≡ line_of block key.now places.now }
{
    for place in places {
        if place.block == block && is_key(key, &place.key) {
            return place.line;
        }
    }
    0
}
