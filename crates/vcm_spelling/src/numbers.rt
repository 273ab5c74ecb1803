//! Statements in another spelling.

use std::alloc::Global;
use vcm_lines::{FaultCode, Logical, SourceFault, Word, WordKind, logical_lines};
use vcm_num::{NoMemory, write_thousandths};
use vcm_sentences::{Decimal, micrometres, piece, read_decimal};

/// What was rounded.
#[derive(Clone, Copy)]
pub struct Rounding {
    pub count: u32,
    // The most by which a number was rounded, in ten millionths of a millimetre.
    pub most: i64,
}

impl Rounding {
    /// One more number, counted in ten millionths, that was rounded; its thousandths.
    pub fn round(&mut self, value: i64) -> i64 {
        let rounded = micrometres(value);
        let by = value
            .saturating_sub(rounded.saturating_mul(10_000))
            .saturating_abs();
        if by != 0 {
            self.count = self.count.saturating_add(1);
            self.most = self.most.max(by);
        }
        rounded
    }

    /// One more number that was rounded.
    fn number(&mut self, number: Decimal) -> i64 {
        let had = self.count;
        let rounded = self.round(number.value);
        if number.is_fine {
            self.count = had.saturating_add(1);
        }
        rounded
    }
}

// Appends a word of a statement, a number with fine digits rounded.
fn put_word(
    word: Word,
    bytes: &[u8],
    rounding: &mut Rounding,
    out: &mut Vec<u8>,
) -> Result<(), NoMemory> {
    let spelled = piece(bytes, word.start as usize, word.end as usize);
    if matches!(word.kind, WordKind::Number) {
        if let Some(number) = read_decimal(spelled) {
            if number.is_fine {
                return write_thousandths(rounding.number(number), out);
            }
        }
    }
    out.extend_from_slice(spelled)?;
    Ok(())
}

// A statement with its numbers rounded.
fn rounded_words(
    alloc: Global,
    logical: &Logical,
    rounding: &mut Rounding,
) -> Result<Vec<u8>, NoMemory> {
    let mut out = Vec::new(alloc);
    for word in logical.words.as_slice() {
        put_word(*word, logical.text.as_bytes(), rounding, &mut out)?;
    }
    Ok(out)
}

// Nothing where a line can't be read. Want of memory is handed on: it says nothing of the line.
fn without_memory(fault: SourceFault) -> Result<Option<Vec<u8>>, NoMemory> {
    match fault.code {
        FaultCode::NoMemory => Err(NoMemory),
        _ => Ok(None),
    }
}

/// A statement with its numbers rounded, if its line can be read.
///
/// Errors: want of memory.
pub fn rounded(
    alloc: Global,
    bytes: &[u8],
    rounding: &mut Rounding,
) -> Result<Option<Vec<u8>>, NoMemory> {
    let read = match logical_lines(alloc, bytes) {
        Ok(read) => read,
        Err(fault) => return without_memory(fault),
    };
    match read.as_slice() {
        [logical] => Ok(Some(rounded_words(alloc, logical, rounding)?)),
        _ => Ok(None),
    }
}

/// Puts pieces together.
pub fn joined(alloc: Global, pieces: &[&[u8]]) -> Result<Vec<u8>, NoMemory> {
    let mut out = Vec::new(alloc);
    for bytes in pieces {
        out.extend_from_slice(bytes)?;
    }
    Ok(out)
}
