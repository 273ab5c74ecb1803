//! Short names, written long again.

ghost use Rattle.std.specs.Prelude.{◌≡◌, ◌++◌, IfOk, OnOk};
ghost use Rattle.vcm_short_names.specs.Lengthened.{long_out, long_piece, long_pieces, lengthened};

use crate::long::is_same;
use crate::pieces::{Piece, pieces};
use crate::short::ShortName;
use std::alloc::Global;
use vcm_num::{Items, NoMemory};

/// The long name of which a word is the short one, or else the word.
pub fn long_out<'a>(names: &'a [ShortName], word: &'a [u8]) -> &'a [u8]
    ensures { result.now ≡ long_out names.now word.now }
{
    for name in names {
        if is_same(name.short.as_slice(), word) {
            return name.long.as_slice();
        }
    }
    word
}

/// The same in memory of its own.
///
/// # Errors
///
/// Out of memory.
pub fn long_name(alloc: Global, names: &[ShortName], word: &[u8]) -> Result<Items<u8>, NoMemory>
    ensures { IfOk result (λ name. name ≡ long_out names.now word.now) }
{
    let name = Items::from_slice(alloc, long_out(names, word))?;
    Ok(name)
}

// Appends a piece.
fn put_piece(out: &mut Vec<u8>, names: &[ShortName], piece: &Piece) -> Result<(), NoMemory>
    ensures { OnOk result (out.new.items ≡ out.old.items ++ long_piece names.now piece.now) }
{
    let bytes = piece.bytes.as_slice();
    let written = if piece.word {
        long_out(names, bytes)
    } else {
        bytes
    };
    out.extend_from_slice(written)?;
    Ok(())
}

// Pieces with their long names.
fn put_all(alloc: Global, names: &[ShortName], pieces: &[Piece]) -> Result<Vec<u8>, NoMemory>
    ensures { IfOk result (λ text. text.items ≡ long_pieces names.now pieces.now) }
{
    let mut out = Vec::new(alloc);
    for piece in pieces {
        put_piece(&mut out, names, piece)?;
    }
    Ok(out)
}

/// A text in which each word that is the short name of a long one is written long; quoted texts, comments and all else stay as they are.
///
/// # Errors
///
/// Out of memory.
pub fn lengthen_names(alloc: Global, names: &[ShortName], text: &[u8]) -> Result<Vec<u8>, NoMemory>
    ensures { IfOk result (λ out. out.items ≡ lengthened names.now text.now) }
{
    let pieces = pieces(alloc, text)?;
    put_all(alloc, names, pieces.as_slice())
}
