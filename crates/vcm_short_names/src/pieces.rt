//! The words of a text, and what stands between them.

ghost use Rattle.std.specs.Prelude.{◌≡◌, IfOk, OnOk};
ghost use Rattle.vcm_lines.specs.Bytes.{is_run};
ghost use Rattle.vcm_short_names.specs.Pieces.{is_line_end, stand_outside, stand_behind, is_word, is_end, line_behind, closed, added, read_as, read_from, pieces};
ghost use Rattle.vcm_short_names.specs.inner.Readers.{reading};
ghost use Rattle.vcm_short_names.specs.inner.Runs.{has_more};

use std::alloc::Global;
use std::mem::replace;
use vcm_num::{Items, LONGEST_NAME, NoMemory};

/// Where the reading of a text stands.
#[derive(Clone, Copy)]
pub enum Stand {
    /// Between words.
    Between,
    /// In a word.
    Word,
    /// Behind a dollar.
    Dollar,
    /// In a quoted text.
    Quoted,
    /// In a comment.
    Comment,
}

/// A piece of a text: a word, or what stands between two.
#[derive(Drop)]
pub struct Piece {
    /// Whether it is a word.
    pub word: bool,
    /// The line that it ends on, from 1.
    pub line: u32,
    /// Its bytes.
    pub bytes: Items<u8>,
}

/// How far a text is read: where the reading stands, the piece that is open, and those before it.
#[derive(Drop)]
struct Reader {
    stand: Stand,
    line: u32,
    bytes: Items<u8>,
    pieces: Items<Piece>,
}

// Whether a byte is a letter, a digit or an underscore.
fn is_run(byte: u8) -> bool
    ensures { result ≡ is_run byte }
{
    matches!(byte, b'A'..=b'Z' | b'a'..=b'z' | b'0'..=b'9' | b'_')
}

// Whether a byte ends a line.
fn is_line_end(byte: u8) -> bool
    ensures { result ≡ is_line_end byte }
{
    byte == b'\n' || byte == b'\r'
}

// Where the reading stands behind a byte outside quoted texts and comments.
fn stand_outside(byte: u8) -> Stand
    ensures { result ≡ stand_outside byte }
{
    if is_run(byte) {
        Stand::Word
    } else if byte == b'\'' {
        Stand::Quoted
    } else if byte == b'$' {
        Stand::Dollar
    } else {
        Stand::Between
    }
}

// Where the reading stands behind a byte.
fn stand_behind(stand: Stand, byte: u8) -> Stand
    ensures { result ≡ stand_behind stand byte }
{
    match stand {
        Stand::Between | Stand::Word => stand_outside(byte),
        Stand::Dollar => {
            if byte == b'$' {
                Stand::Comment
            } else {
                stand_outside(byte)
            }
        }
        Stand::Quoted => {
            if byte == b'\'' || is_line_end(byte) {
                Stand::Between
            } else {
                Stand::Quoted
            }
        }
        Stand::Comment => {
            if is_line_end(byte) {
                Stand::Between
            } else {
                Stand::Comment
            }
        }
    }
}

// Whether the byte that was read last is a word's.
fn is_word(stand: Stand) -> bool
    ensures { result ≡ is_word stand }
{
    matches!(stand, Stand::Word)
}

// Whether a piece ends where the reading goes from one stand to another.
fn is_end(from: Stand, to: Stand) -> bool
    ensures { result ≡ is_end (is_word from) (is_word to) }
{
    if is_word(from) {
        !is_word(to)
    } else {
        is_word(to)
    }
}

// The line behind a byte.
fn line_behind(line: u32, byte: u8) -> u32
    ensures { result ≡ line_behind line byte }
{
    if byte == b'\n' && line < u32::MAX {
        line + 1
    } else {
        line
    }
}

// The piece that is open ends.
fn close(alloc: Global, reader: &mut Reader) -> Result<(), NoMemory>
    ensures { OnOk result (reading reader.new ≡ closed (reading reader.old)) }
{
    let piece = Piece {
        word: is_word(reader.stand),
        line: reader.line,
        bytes: replace(&mut reader.bytes, Items::new(alloc)),
    };
    reader.pieces.push(piece)?;
    Ok(())
}

// One more byte is open.
fn add(reader: &mut Reader, stand: Stand, byte: u8) -> Result<(), NoMemory>
    ensures { OnOk result (reading reader.new ≡ added stand (reading reader.old) byte) }
{
    reader.stand = stand;
    reader.line = line_behind(reader.line, byte);
    reader.bytes.push(byte)?;
    Ok(())
}

// One more byte is read, behind which the reading stands here.
fn read_as(alloc: Global, reader: &mut Reader, stand: Stand, byte: u8) -> Result<(), NoMemory>
    ensures { OnOk result (reading reader.new ≡ read_as stand (reading reader.old) byte) }
{
    if is_end(reader.stand, stand) {
        close(alloc, reader)?;
        add(reader, stand, byte)
    } else {
        add(reader, stand, byte)
    }
}

// All bytes.
fn read_all(alloc: Global, reader: &mut Reader, text: &[u8]) -> Result<(), NoMemory>
    ensures { OnOk result (reading reader.new ≡ read_from (reading reader.old) text.now) }
{
    for byte in text {
        let stand = stand_behind(reader.stand, *byte);
        read_as(alloc, reader, stand, *byte)?;
    }
    Ok(())
}

/// A text in pieces.
pub(crate) fn pieces(alloc: Global, text: &[u8]) -> Result<Items<Piece>, NoMemory>
    ensures { IfOk result (λ all. all ≡ pieces text.now) }
{
    let mut reader = Reader {
        stand: Stand::Between,
        line: 1,
        bytes: Items::new(alloc),
        pieces: Items::new(alloc),
    };
    read_all(alloc, &mut reader, text)?;
    close(alloc, &mut reader)?;
    Ok(reader.pieces)
}

/// Whether a text has a word of more than sixteen bytes.
pub(crate) fn has_more(text: &[u8]) -> bool
    ensures { result ≡ has_more text.now }
{
    let mut stand = Stand::Between;
    let mut count = 0;
    for byte in text {
        stand = stand_behind(stand, *byte);
        count = if is_word(stand) { count + 1 } else { 0 };
        if count > LONGEST_NAME {
            return true;
        }
    }
    false
}
