//! The short names that long ones get, and the text with them.

ghost use Rattle.std.specs.Prelude.{◌≡◌, [], ◌++◌, ◌&&◌, take, drop, IfOk, OnOk};
ghost use Rattle.std.specs.List.{list_any, filter};
ghost use Rattle.vcm_short_names.specs.Short.{is_same, made_short, is_taken, free_from, names_behind, names_from, names_in, short_names, respelled, word_out, piece_out, text_out, shortened};
ghost use Rattle.vcm_short_names.specs.inner.Full.{is_full};

use crate::long::{LongName, is_long, is_same, longs_in};
use crate::pieces::{Piece, has_more, pieces};
use std::alloc::Global;
use vcm_num::{Items, LONGEST_NAME, NoMemory};

/// The most bytes of a name that stand in front of a number.
const LONGEST_FRONT: usize = 13;

/// The most ways in which a name is made short: its first bytes, and 99 numbers.
const MOST_ALIKE: u8 = 100;

/// A long name with its short one, both in upper case.
#[derive(Drop)]
pub struct ShortName {
    /// The name as the text has it.
    pub long: Items<u8>,
    /// The name that it gets.
    pub short: Items<u8>,
    /// The line of its first appearance, from 1.
    pub line: u32,
}

/// A text with its long names written short.
#[derive(Drop)]
pub struct Shortened {
    /// The text.
    pub text: Vec<u8>,
    /// The names that were long, in the order of their first appearance.
    pub names: Items<ShortName>,
}

// The first bytes, at most so many.
fn first(bytes: &[u8], most: usize) -> &[u8]
    ensures { result.now ≡ take most bytes.now }
{
    if bytes.len() <= most {
        bytes
    } else {
        &bytes[..most]
    }
}

// The bytes behind the first ones.
fn behind(bytes: &[u8], most: usize) -> &[u8]
    ensures { result.now ≡ drop most bytes.now }
{
    if bytes.len() <= most {
        &[]
    } else {
        &bytes[most..]
    }
}

// A name made short, with a number from 1 on or without one.
fn made_short(alloc: Global, number: u8, long: &[u8]) -> Result<Items<u8>, NoMemory>
    ensures { IfOk result (λ short. short ≡ made_short number long.now) }
{
    if number == 0 {
        let short = Items::from_slice(alloc, first(long, LONGEST_NAME))?;
        return Ok(short);
    }
    let mut short = Items::from_slice(alloc, first(long, LONGEST_FRONT))?;
    short.push(b'_')?;
    short.push(b'0' + number / 10)?;
    short.push(b'0' + number % 10)?;
    Ok(short)
}

// Whether a word of a text is this name.
fn is_word_of(pieces: &[Piece], name: &[u8]) -> bool
    ensures { result ≡ list_any (λ p. p.word && is_same p.bytes name.now) pieces.now }
{
    pieces.iter().any(|piece| piece.word && is_same(piece.bytes.as_slice(), name))
}

// Whether a long name got this one.
fn is_given(names: &[ShortName], name: &[u8]) -> bool
    ensures { result ≡ list_any (λ n. is_same n.short name.now) names.now }
{
    names
        .iter()
        .any(|other| is_same(other.short.as_slice(), name))
}

// Whether a name is taken.
fn is_taken(pieces: &[Piece], names: &[ShortName], name: &[u8]) -> bool
    ensures { result ≡ is_taken pieces.now names.now name.now }
{
    is_word_of(pieces, name) || is_given(names, name)
}

// The first short name of a long one that isn't taken, of so many.
fn first_free(
    alloc: Global,
    pieces: &[Piece],
    names: &[ShortName],
    long: &[u8],
    most: u8,
) -> Result<Option<Items<u8>>, NoMemory>
    ensures { IfOk result (λ free. free ≡ free_from pieces.now names.now long.now most 0) }
{
    for number in 0..most {
        let short = made_short(alloc, number, long)?;
        if !is_taken(pieces, names, short.as_slice()) {
            return Ok(Some(short));
        }
    }
    Ok(None)
}

// Adds the short name of a long one, if it gets one.
fn add_name(
    alloc: Global,
    pieces: &[Piece],
    names: &mut Items<ShortName>,
    long: &LongName,
) -> Result<(), NoMemory>
    ensures { OnOk result (names.new ≡ names_behind pieces.now names.old long.now) }
{
    let bytes = long.name.as_slice();
    let free = first_free(alloc, pieces, names.as_slice(), bytes, MOST_ALIKE)?;
    match free {
        None => Ok(()),
        Some(short) => {
            names.push(ShortName {
                long: Items::from_slice(alloc, bytes)?,
                short,
                line: long.line,
            })?;
            Ok(())
        }
    }
}

// Whether a piece has as many bytes as short names have.
fn is_full(piece: &Piece) -> bool
    ensures { result ≡ is_full piece.now }
{
    piece.bytes.len() == LONGEST_NAME
}

// The pieces that have as many bytes as short names: no other word can be the same as one.
fn full_ones(alloc: Global, pieces: &[Piece]) -> Result<Items<Piece>, NoMemory>
    ensures { IfOk result (λ full. full ≡ filter is_full pieces.now) }
{
    let mut full = Items::new(alloc);
    for piece in pieces {
        if is_full(piece) {
            full.push(Piece {
                word: piece.word,
                line: piece.line,
                bytes: Items::from_slice(alloc, piece.bytes.as_slice())?,
            })?;
        }
    }
    Ok(full)
}

// The short names of long ones, where these pieces have all words that may be the same.
fn names_from(
    alloc: Global,
    pieces: &[Piece],
    longs: &[LongName],
) -> Result<Items<ShortName>, NoMemory>
    ensures { IfOk result (λ names. names ≡ names_from pieces.now [] longs.now) }
{
    let mut names = Items::new(alloc);
    for long in longs {
        add_name(alloc, pieces, &mut names, long)?;
    }
    Ok(names)
}

// The names that pieces of a text get.
fn names_in(alloc: Global, pieces: &[Piece]) -> Result<Items<ShortName>, NoMemory>
    ensures { IfOk result (λ names. names ≡ names_in pieces.now) }
{
    let longs = longs_in(alloc, pieces)?;
    let full = full_ones(alloc, pieces)?;
    names_from(alloc, full.as_slice(), longs.as_slice())
}

// Appends a long word made short.
fn put_short(out: &mut Vec<u8>, short: &[u8], word: &[u8]) -> Result<(), NoMemory>
    ensures { OnOk result (out.new.items ≡ out.old.items ++ respelled short.now word.now) }
{
    let front = first(word, LONGEST_NAME);
    if is_same(short, front) {
        out.extend_from_slice(front)?;
        Ok(())
    } else {
        out.extend_from_slice(first(word, LONGEST_FRONT))?;
        out.extend_from_slice(behind(short, LONGEST_FRONT))?;
        Ok(())
    }
}

// Appends a word with the short name that it has.
fn put_word(out: &mut Vec<u8>, names: &[ShortName], word: &[u8]) -> Result<(), NoMemory>
    ensures { OnOk result (out.new.items ≡ out.old.items ++ word_out names.now word.now) }
{
    for name in names {
        if is_same(name.long.as_slice(), word) {
            return put_short(out, name.short.as_slice(), word);
        }
    }
    out.extend_from_slice(word)?;
    Ok(())
}

// Appends a piece.
fn put_piece(out: &mut Vec<u8>, names: &[ShortName], piece: &Piece) -> Result<(), NoMemory>
    ensures { OnOk result (out.new.items ≡ out.old.items ++ piece_out names.now piece.now) }
{
    let bytes = piece.bytes.as_slice();
    if piece.word && is_long(bytes) {
        put_word(out, names, bytes)
    } else {
        out.extend_from_slice(bytes)?;
        Ok(())
    }
}

// The text that pieces are with these names.
fn text_out(alloc: Global, names: &[ShortName], pieces: &[Piece]) -> Result<Vec<u8>, NoMemory>
    ensures { IfOk result (λ text. text.items ≡ text_out names.now pieces.now) }
{
    let mut out = Vec::new(alloc);
    for piece in pieces {
        put_piece(&mut out, names, piece)?;
    }
    Ok(out)
}

// A text with its long names written short, word by word.
fn shorten_all(alloc: Global, text: &[u8]) -> Result<Shortened, NoMemory>
    ensures text { IfOk result (λ s. s.text.items ≡ shortened text.now) }
    ensures names { IfOk result (λ s. s.names ≡ short_names text.now) }
{
    let pieces = pieces(alloc, text)?;
    let names = names_in(alloc, pieces.as_slice())?;
    let text = text_out(alloc, names.as_slice(), pieces.as_slice())?;
    Ok(Shortened { text, names })
}

/// A text with its long names written short, and these names.
///
/// # Errors
///
/// Out of memory.
#[tactic(auto, using(crate::proofs::Runs::no_names_there, crate::proofs::Runs::stays_there))]
pub fn shorten_names(alloc: Global, text: &[u8]) -> Result<Shortened, NoMemory>
    ensures text { IfOk result (λ s. s.text.items ≡ shortened text.now) }
    ensures names { IfOk result (λ s. s.names ≡ short_names text.now) }
{
    if has_more(text) {
        return shorten_all(alloc, text);
    }
    Ok(Shortened {
        text: Vec::from_slice(alloc, text)?,
        names: Items::new(alloc),
    })
}
