//! Relations of absolute values.

ghost use Rattle.std.specs.Prelude.{◌≡◌, ◌++◌, IfOk, OnOk};
ghost use Rattle.vcm_functions.specs.Relations.{is_joining, both_of, ends_bound, compared, joint, opened, deeper, depth_behind, is_odd, opened_text};

use crate::words::{is_blank, is_in_word, word_of};
use std::alloc::Global;
use std::marker::Model;
use vcm_num::{NoMemory, is, look_up};

/// Where the reading of an expression stands.
#[derive(Clone, Copy)]
pub enum Stand {
    /// Between words.
    Outside,
    /// In a word.
    Word,
    /// In a quoted text.
    Quoted,
    /// In an absolute value.
    Inside,
    /// Behind it.
    Behind,
    /// In what it is compared with.
    Bound,
}

/// The most parentheses that may be open in what is opened.
pub const MOST_DEPTH: u32 = 100;

/// An expression as it is read. Contracts see it as the `Reading` of the definitions.
#[derive(Drop)]
struct Reader {
    stand: Stand,
    /// Whether a relation may begin here.
    free: bool,
    /// How many parentheses are open in what is read.
    depth: u32,
    /// Whether both relations are to hold.
    both: bool,
    /// What stands in an absolute value.
    inner: Vec<u8>,
    /// The relation behind it.
    relation: Vec<u8>,
    /// The bound up to its last point.
    bound: Vec<u8>,
    /// And from there on.
    last: Vec<u8>,
    /// The bytes that are held back.
    held: Vec<u8>,
    /// The bytes that are written.
    out: Vec<u8>,
}

// Whether a word joins relations or negates one.
fn is_joining(word: &[u8]) -> bool
    ensures { result ≡ is_joining word.now }
{
    is(word, b"AND") || is(word, b"OR") || is(word, b"NOT")
}

// Whether both relations are to hold, by the word of a relation.
fn both_of(word: &[u8]) -> Option<bool>
    ensures { result ≡ both_of word.now }
{
    look_up(
        &[
            (b".GT", false),
            (b".GE", false),
            (b".LT", true),
            (b".LE", true),
        ],
        word,
    )
}

// Whether a dotted word ends a bound.
fn ends_bound(word: &[u8]) -> Option<bool>
    ensures { result ≡ ends_bound word.now }
{
    look_up(
        &[
            (b".AND", true),
            (b".OR", true),
            (b".NOT", false),
            (b".EQ", false),
            (b".NE", false),
            (b".GT", false),
            (b".GE", false),
            (b".LT", false),
            (b".LE", false),
        ],
        word,
    )
}

// Appends what is compared, the parentheses behind it, the relation, and the bound.
fn put_compared(
    inner: &[u8],
    behind: &[u8],
    relation: &[u8],
    bound: &[u8],
    out: &mut Vec<u8>,
) -> Result<(), NoMemory>
    ensures { OnOk result (out.new.items ≡ out.old.items ++ compared inner.now behind.now relation.now bound.now) }
{
    out.extend_from_slice(inner)?;
    out.extend_from_slice(behind)?;
    out.extend_from_slice(relation)?;
    out.extend_from_slice(bound)?;
    Ok(())
}

// Appends the word between the two relations.
fn put_joint(both: bool, out: &mut Vec<u8>) -> Result<(), NoMemory>
    ensures { OnOk result (out.new.items ≡ out.old.items ++ joint both) }
{
    if both {
        out.extend_from_slice(b".AND.(0-(")?;
    } else {
        out.extend_from_slice(b".OR.(0-(")?;
    }
    Ok(())
}

// Appends an absolute value in a relation as two relations.
fn put_opened(
    both: bool,
    inner: &[u8],
    relation: &[u8],
    bound: &[u8],
    out: &mut Vec<u8>,
) -> Result<(), NoMemory>
    ensures { OnOk result (out.new.items ≡ out.old.items ++ opened both inner.now relation.now bound.now) }
{
    out.extend_from_slice(b"((")?;
    put_compared(inner, b")", relation, bound, out)?;
    put_joint(both, out)?;
    put_compared(inner, b"))", relation, bound, out)?;
    out.push(b')')?;
    Ok(())
}

// One more open parenthesis, up to the most.
fn deeper(depth: u32) -> u32
    ensures { result ≡ deeper depth }
{
    if depth < MOST_DEPTH { depth + 1 } else { depth }
}

// How many parentheses are open behind a byte.
fn depth_behind(depth: u32, byte: u8) -> u32
    ensures { result ≡ depth_behind depth byte }
{
    match byte {
        b'(' => deeper(depth),
        b')' => depth.saturating_sub(1),
        _ => depth,
    }
}

// Whether a byte can't stand in what is opened.
fn is_odd(depth: u32, byte: u8) -> bool
    ensures { result ≡ is_odd depth byte }
{
    byte == b'\'' || (byte == b'(' && !(depth < MOST_DEPTH))
}

impl Model for Reader {
    ghost use Rattle.vcm_functions.specs.Relations.{Reading};

    ghost Value = { Reading };

    ghost view = { λ r. record { stand = r.stand; free = r.free; depth = r.depth; both = r.both; inner = r.inner.items; relation = r.relation.items; bound = r.bound.items; last = r.last.items; held = r.held.items; out = r.out.items } };
}

impl Reader {
    ghost use Rattle.std.specs.Prelude.{◌≡◌, ◌++◌, ◌∷◌, [], true, OnOk, Some};
    ghost use Rattle.vcm_functions.specs.Relations.{nothing_read, wrote, opened, holding, outside_behind, ended, word_ended, word_behind, quoted_behind, inside_behind, relating, related, relation_behind, point_behind, bound_behind, read_behind, all_out};

    // Nothing is read.
    fn new(alloc: Global) -> Reader
        ensures { result ≡ nothing_read }
    {
        Reader {
            stand: Stand::Outside,
            free: true,
            depth: 0,
            both: false,
            inner: Vec::new(alloc),
            relation: Vec::new(alloc),
            bound: Vec::new(alloc),
            last: Vec::new(alloc),
            held: Vec::new(alloc),
            out: Vec::new(alloc),
        }
    }

    // No byte is held back.
    fn restart(&mut self, free: bool)
        ensures { self.new ≡ record nothing_read { free = free; out = self.old.out } }
    {
        self.stand = Stand::Outside;
        self.free = free;
        self.depth = 0;
        self.both = false;
        self.inner.clear();
        self.relation.clear();
        self.bound.clear();
        self.last.clear();
        self.held.clear();
    }

    // One more byte is held back.
    fn hold(&mut self, byte: u8) -> Result<(), NoMemory>
        ensures { OnOk result (self.new ≡ holding self.old byte) }
    {
        self.held.push(byte)?;
        Ok(())
    }

    // A byte between words.
    fn read_outside(&mut self, byte: u8) -> Result<(), NoMemory>
        ensures { OnOk result (self.new ≡ outside_behind self.old byte) }
    {
        if is_in_word(byte) {
            self.stand = Stand::Word;
            return self.hold(byte);
        }
        if byte == b'\'' {
            self.stand = Stand::Quoted;
            self.free = false;
        } else {
            self.free = byte == b'(' || (self.free && is_blank(byte));
        }
        self.out.push(byte)?;
        Ok(())
    }

    // A byte behind what is no such relation.
    fn end_at(&mut self, byte: u8) -> Result<(), NoMemory>
        ensures { OnOk result (self.new ≡ ended self.old byte) }
    {
        self.out.extend_from_slice(&self.held)?;
        self.restart(false);
        self.read_outside(byte)
    }

    // The end of a word at a byte.
    fn end_word(&mut self, word: &[u8], byte: u8) -> Result<(), NoMemory>
        ensures { OnOk result (self.new ≡ word_ended self.old word.now byte) }
    {
        if byte == b'(' && self.free && is(word, b"ABS") {
            self.stand = Stand::Inside;
            return self.hold(byte);
        }
        if byte == b'.' && is_joining(word) {
            self.held.push(byte)?;
            self.out.extend_from_slice(&self.held)?;
            self.restart(true);
            return Ok(());
        }
        self.end_at(byte)
    }

    // A byte behind a word, or in it.
    fn read_word(&mut self, alloc: Global, byte: u8) -> Result<(), NoMemory>
        ensures { OnOk result (self.new ≡ word_behind self.old byte) }
    {
        if is_in_word(byte) || is_blank(byte) {
            return self.hold(byte);
        }
        let word = word_of(alloc, &self.held)?;
        self.end_word(&word, byte)
    }

    // A byte of a quoted text.
    fn read_quoted(&mut self, byte: u8) -> Result<(), NoMemory>
        ensures { OnOk result (self.new ≡ quoted_behind self.old byte) }
    {
        self.stand = if byte == b'\'' {
            Stand::Outside
        } else {
            Stand::Quoted
        };
        self.out.push(byte)?;
        Ok(())
    }

    // A byte in an absolute value.
    fn read_inside(&mut self, byte: u8) -> Result<(), NoMemory>
        ensures { OnOk result (self.new ≡ inside_behind self.old byte) }
    {
        if is_odd(self.depth, byte) {
            return self.end_at(byte);
        }
        if byte == b')' && self.depth == 0 {
            self.stand = Stand::Behind;
            return self.hold(byte);
        }
        self.depth = depth_behind(self.depth, byte);
        self.inner.push(byte)?;
        self.hold(byte)
    }

    // One more byte of a relation.
    fn relate(&mut self, byte: u8) -> Result<(), NoMemory>
        ensures { OnOk result (self.new ≡ relating self.old byte) }
    {
        self.relation.push(byte)?;
        self.hold(byte)
    }

    // The point behind a relation.
    fn end_relation(&mut self, both: Option<bool>, byte: u8) -> Result<(), NoMemory>
        ensures { OnOk result (self.new ≡ related both self.old byte) }
    {
        match both {
            Some(both) => {
                self.stand = Stand::Bound;
                self.both = both;
                self.relate(byte)
            }
            None => self.end_at(byte),
        }
    }

    // A byte behind an absolute value.
    fn read_relation(&mut self, alloc: Global, byte: u8) -> Result<(), NoMemory>
        ensures { OnOk result (self.new ≡ relation_behind self.old byte) }
    {
        if is_in_word(byte) || is_blank(byte) {
            return self.relate(byte);
        }
        if byte != b'.' {
            return self.end_at(byte);
        }
        let word = word_of(alloc, &self.relation)?;
        if is(&word, b"") {
            self.relate(byte)
        } else {
            self.end_relation(both_of(&word), byte)
        }
    }

    // What is read is opened, with a bound up to its last point.
    fn put(&mut self) -> Result<(), NoMemory>
        ensures { OnOk result (self.new ≡ record self.old { out = self.old.out ++ opened self.old.both self.old.inner self.old.relation self.old.bound }) }
    {
        put_opened(
            self.both,
            &self.inner,
            &self.relation,
            &self.bound,
            &mut self.out,
        )
    }

    // The same with all of its bound.
    fn put_all(&mut self) -> Result<(), NoMemory>
        ensures { OnOk result (self.new.out ≡ self.old.out ++ opened self.old.both self.old.inner self.old.relation (self.old.bound ++ self.old.last)) }
    {
        self.bound.extend_from_slice(&self.last)?;
        self.put()
    }

    // A word that ends a bound.
    fn end_bound(&mut self, byte: u8) -> Result<(), NoMemory>
        ensures { OnOk result (self.new ≡ point_behind (Some true) self.old byte) }
    {
        self.put()?;
        self.out.extend_from_slice(&self.last)?;
        self.out.push(byte)?;
        self.restart(true);
        Ok(())
    }

    // A point in a bound.
    fn read_point(&mut self, ends: Option<bool>, byte: u8) -> Result<(), NoMemory>
        ensures { OnOk result (self.new ≡ point_behind ends self.old byte) }
    {
        match ends {
            Some(true) => self.end_bound(byte),
            Some(false) => self.end_at(byte),
            None => {
                self.bound.extend_from_slice(&self.last)?;
                self.last.clear();
                self.last.push(byte)?;
                self.hold(byte)
            }
        }
    }

    // A byte of a bound.
    fn read_bound(&mut self, alloc: Global, byte: u8) -> Result<(), NoMemory>
        ensures { OnOk result (self.new ≡ bound_behind self.old byte) }
    {
        if is_odd(self.depth, byte) {
            return self.end_at(byte);
        }
        if byte == b')' && self.depth == 0 {
            self.put_all()?;
            self.out.push(byte)?;
            self.restart(false);
            return Ok(());
        }
        if byte == b'.' && self.depth == 0 {
            let word = word_of(alloc, &self.last)?;
            return self.read_point(ends_bound(&word), byte);
        }
        self.depth = depth_behind(self.depth, byte);
        self.last.push(byte)?;
        self.hold(byte)
    }

    // One more byte.
    fn read(&mut self, alloc: Global, byte: u8) -> Result<(), NoMemory>
        ensures { OnOk result (self.new ≡ read_behind self.old.stand self.old byte) }
    {
        match self.stand {
            Stand::Outside => self.read_outside(byte),
            Stand::Word => self.read_word(alloc, byte),
            Stand::Quoted => self.read_quoted(byte),
            Stand::Inside => self.read_inside(byte),
            Stand::Behind => self.read_relation(alloc, byte),
            Stand::Bound => self.read_bound(alloc, byte),
        }
    }

    // What is open at the end is written.
    fn end(&mut self) -> Result<(), NoMemory>
        ensures { OnOk result (self.new.out ≡ all_out self.old) }
    {
        match self.stand {
            Stand::Bound => self.put_all(),
            _ => {
                self.out.extend_from_slice(&self.held)?;
                Ok(())
            }
        }
    }
}

/// An expression with each absolute value that stands first in a relation opened into two relations.
///
/// # Errors
///
/// Out of memory.
#[tactic(auto, unfolding(crate::specs::Relations::opened_text))]
pub(crate) fn opened_text(alloc: Global, bytes: &[u8]) -> Result<Vec<u8>, NoMemory>
    ensures { IfOk result (λ written. written.items ≡ opened_text bytes.now) }
{
    let mut reader = Reader::new(alloc);
    for byte in bytes {
        reader.read(alloc, *byte)?;
    }
    reader.end()?;
    Ok(reader.out)
}
