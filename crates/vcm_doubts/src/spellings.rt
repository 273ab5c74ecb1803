//! The words of a text as they are spelled.

ghost use Rattle.std.specs.Prelude.{◌≡◌, IfOk, OnOk};
ghost use Rattle.vcm_lines.specs.Bytes.{is_blank};
ghost use Rattle.vcm_doubts.specs.Spellings.{is_spelled, may_be_name, closed, outside_behind, dollar_behind, is_line_end, read_behind, read_from, spellings};
ghost use Rattle.vcm_doubts.specs.inner.Readers.{reading};

use std::alloc::Global;
use std::mem::replace;
use vcm_lines::upper;
use vcm_num::{Items, NoMemory};

/// Where the reading of a text stands.
#[derive(Clone, Copy, PartialEq, Eq)]
pub enum Stand {
    /// In a statement.
    Outside,
    /// Behind a dollar in a statement.
    Dollar,
    /// In a quoted text.
    Quoted,
    /// In a comment.
    Comment,
}

/// How far a text is read: where the reading stands, the word that is open, and those before it.
#[derive(Drop)]
struct Reader {
    stand: Stand,
    word: Items<u8>,
    words: Items<Items<u8>>,
}

// Whether a byte may stand in a name, in either case.
fn is_spelled(byte: u8) -> bool
    ensures { result ≡ is_spelled byte }
{
    let raised = upper(byte);
    raised.is_ascii_uppercase() || raised.is_ascii_digit() || raised == b'_'
}

// Whether a byte stands for nothing.
fn is_blank(byte: u8) -> bool
    ensures { result ≡ is_blank byte }
{
    byte == b' ' || byte == b'\t'
}

// Whether a byte ends a line.
fn is_line_end(byte: u8) -> bool
    ensures { result ≡ is_line_end byte }
{
    byte == b'\n' || byte == b'\r'
}

// Whether a word may be a name: it begins with no digit.
fn may_be_name(word: &[u8]) -> bool
    ensures { result ≡ may_be_name word.now }
{
    match word {
        [] => false,
        [first, ..] => !first.is_ascii_digit(),
    }
}

// The word that is open ends.
fn close(alloc: Global, reader: &mut Reader, stand: Stand) -> Result<(), NoMemory>
    ensures { OnOk result (reading reader.new ≡ closed stand (reading reader.old)) }
{
    reader.stand = stand;
    let word = replace(&mut reader.word, Items::new(alloc));
    if may_be_name(word.as_slice()) {
        reader.words.push(word)?;
        Ok(())
    } else {
        Ok(())
    }
}

// A byte outside texts and comments.
fn read_outside(alloc: Global, reader: &mut Reader, byte: u8) -> Result<(), NoMemory>
    ensures { OnOk result (reading reader.new ≡ outside_behind (reading reader.old) byte) }
{
    if is_spelled(byte) {
        reader.stand = Stand::Outside;
        reader.word.push(byte)?;
        Ok(())
    } else if is_blank(byte) {
        Ok(())
    } else if byte == b'$' {
        reader.stand = Stand::Dollar;
        Ok(())
    } else if byte == b'\'' {
        close(alloc, reader, Stand::Quoted)
    } else {
        close(alloc, reader, Stand::Outside)
    }
}

// A byte behind a dollar.
fn read_dollar(alloc: Global, reader: &mut Reader, byte: u8) -> Result<(), NoMemory>
    ensures { OnOk result (reading reader.new ≡ dollar_behind (reading reader.old) byte) }
{
    if byte == b'$' {
        close(alloc, reader, Stand::Comment)
    } else if byte == b'\n' {
        reader.stand = Stand::Outside;
        Ok(())
    } else if is_blank(byte) || byte == b'\r' {
        Ok(())
    } else {
        reader.stand = Stand::Outside;
        read_outside(alloc, reader, byte)
    }
}

// One more byte.
fn read_byte(alloc: Global, reader: &mut Reader, byte: u8) -> Result<(), NoMemory>
    ensures { OnOk result (reading reader.new ≡ read_behind reader.old.stand (reading reader.old) byte) }
{
    match reader.stand {
        Stand::Outside => read_outside(alloc, reader, byte),
        Stand::Dollar => read_dollar(alloc, reader, byte),
        Stand::Quoted => {
            if byte == b'\'' || is_line_end(byte) {
                close(alloc, reader, Stand::Outside)
            } else {
                Ok(())
            }
        }
        Stand::Comment => {
            if is_line_end(byte) {
                close(alloc, reader, Stand::Outside)
            } else {
                Ok(())
            }
        }
    }
}

// All bytes.
fn read_all(alloc: Global, reader: &mut Reader, text: &[u8]) -> Result<(), NoMemory>
    ensures { OnOk result (reading reader.new ≡ read_from (reading reader.old) text.now) }
{
    for byte in text {
        read_byte(alloc, reader, *byte)?;
    }
    Ok(())
}

/// The words of a text, in order, as they are spelled.
pub(crate) fn spellings(alloc: Global, text: &[u8]) -> Result<Items<Items<u8>>, NoMemory>
    ensures { IfOk result (λ words. words ≡ spellings text.now) }
{
    let mut reader = Reader {
        stand: Stand::Outside,
        word: Items::new(alloc),
        words: Items::new(alloc),
    };
    read_all(alloc, &mut reader, text)?;
    close(alloc, &mut reader, Stand::Outside)?;
    Ok(reader.words)
}
