//! Names that are too long.

ghost use Rattle.std.specs.Prelude.{◌≡◌, map, IfOk, OnOk};
ghost use Rattle.std.specs.List.{list_any};
ghost use Rattle.vcm_lines.specs.Bytes.{upper};
ghost use Rattle.vcm_short_names.specs.Short.{begins_name, is_long, is_same, is_new, longs_behind, longs_in};

use crate::pieces::Piece;
use std::alloc::Global;
use vcm_lines::upper;
use vcm_num::{Items, LONGEST_NAME, NoMemory};

/// A long name.
#[derive(Drop)]
pub struct LongName {
    /// The name in upper case.
    pub name: Items<u8>,
    /// The line of its first appearance, from 1.
    pub line: u32,
}

// Whether a word begins with a letter or an underscore.
fn begins_name(word: &[u8]) -> bool
    ensures { result ≡ begins_name word.now }
{
    match word {
        [] => false,
        [first, ..] => !first.is_ascii_digit(),
    }
}

/// Whether a word is a name that is too long.
pub(crate) fn is_long(word: &[u8]) -> bool
    ensures { result ≡ is_long word.now }
{
    word.len() > LONGEST_NAME && begins_name(word)
}

/// Whether two words are the same name.
pub(crate) fn is_same(word: &[u8], other: &[u8]) -> bool
    ensures { result ≡ is_same word.now other.now }
{
    word.eq_ignore_ascii_case(other)
}

// A word in upper case.
fn raised(alloc: Global, word: &[u8]) -> Result<Items<u8>, NoMemory>
    ensures { IfOk result (λ bytes. bytes ≡ map upper word.now) }
{
    let mut bytes = Items::new(alloc);
    for byte in word {
        bytes.push(upper(*byte))?;
    }
    Ok(bytes)
}

// Whether a word is one of these long names.
fn is_among(longs: &[LongName], word: &[u8]) -> bool
    ensures { result ≡ list_any (λ l. is_same l.name word.now) longs.now }
{
    longs.iter().any(|long| is_same(long.name.as_slice(), word))
}

// Whether a piece is a long name that isn't among these.
fn is_new(longs: &[LongName], piece: &Piece) -> bool
    ensures { result ≡ is_new longs.now piece.now }
{
    piece.word && is_long(piece.bytes.as_slice()) && !is_among(longs, piece.bytes.as_slice())
}

// Adds a piece, if it is a long name that isn't among these.
fn add_long(alloc: Global, longs: &mut Items<LongName>, piece: &Piece) -> Result<(), NoMemory>
    ensures { OnOk result (longs.new ≡ longs_behind longs.old piece.now) }
{
    if !is_new(longs.as_slice(), piece) {
        return Ok(());
    }
    let name = raised(alloc, piece.bytes.as_slice())?;
    longs.push(LongName {
        name,
        line: piece.line,
    })?;
    Ok(())
}

/// The long names of pieces, each once, in the order of first appearance.
pub(crate) fn longs_in(alloc: Global, pieces: &[Piece]) -> Result<Items<LongName>, NoMemory>
    ensures { IfOk result (λ longs. longs ≡ longs_in pieces.now) }
{
    let mut longs = Items::new(alloc);
    for piece in pieces {
        add_long(alloc, &mut longs, piece)?;
    }
    Ok(longs)
}
