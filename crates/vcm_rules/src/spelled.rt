//! Statements that no rule changes: as they are, or with names, numbers and units that the subset has.

use crate::view::Said;
use vcm_classes::Ruling;
use vcm_num::{NoMemory, is};
use vcm_sentences::{has_fine_digits, piece};
use vcm_spelling::{Rounding, joined, put_coordinate, rounded};
use vcm_standard::Reason;

/// At which fields of a statement lengths stand, counted from 0 on.
#[derive(Clone, Copy)]
pub(crate) enum Lengths {
    All,
    /// From this one to before that one.
    From(usize, usize),
    /// At every second one.
    Odd,
}

impl Lengths {
    // Whether a length stands at this field.
    fn has(self, at: usize) -> bool {
        match self {
            Lengths::All => true,
            Lengths::From(from, to) => from <= at && at < to,
            Lengths::Odd => at % 2 == 1,
        }
    }
}

// What stands in front of the fields.
fn head_of<'a>(said: Said<'_, 'a>) -> &'a [u8] {
    let length = said.bytes.len().saturating_sub(said.parts.rest.len());
    piece(said.bytes, 0, length)
}

// Appends a field, a length in millimetres, and says whether it could be.
fn put_field(
    at: usize,
    field: &[u8],
    is_length: bool,
    rounding: &mut Rounding,
    out: &mut Vec<u8>,
) -> Result<bool, NoMemory> {
    if at != 0 {
        out.push(b',')?;
    }
    if is_length {
        return put_coordinate(field, 0, true, rounding, out);
    }
    out.extend_from_slice(field)?;
    Ok(true)
}

// Appends the statement with its lengths in millimetres, and says whether all of them are literals.
fn put_scaled(
    said: Said<'_, '_>,
    lengths: Lengths,
    rounding: &mut Rounding,
    out: &mut Vec<u8>,
) -> Result<bool, NoMemory> {
    out.extend_from_slice(head_of(said))?;
    let mut are_literal = true;
    let mut at = 0usize;
    for field in said.fields {
        let is_length = lengths.has(at) && !is(field, b"CART");
        let is_literal = put_field(at, field, is_length, rounding, out)?;
        are_literal = are_literal && is_literal;
        at = at.saturating_add(1);
    }
    Ok(are_literal)
}

/// A statement whose lengths stand at these places.
pub(crate) fn with_lengths(
    said: Said<'_, '_>,
    lengths: Lengths,
    rounding: &mut Rounding,
) -> Result<Ruling, NoMemory> {
    if !said.ground.traits.is_inch {
        return standing(said, rounding);
    }
    let mut new = Vec::new(said.ground.alloc);
    if put_scaled(said, lengths, rounding, &mut new)? {
        Ok(Ruling::Respelled(Reason::Inches, new))
    } else {
        Ok(Ruling::NotTried(Reason::LengthExpressions))
    }
}

/// A statement without lengths, or in millimetres.
pub(crate) fn standing(said: Said<'_, '_>, rounding: &mut Rounding) -> Result<Ruling, NoMemory> {
    if !has_fine_digits(said.bytes) {
        return Ok(Ruling::Stands);
    }
    if said.ground.options.is_exact {
        return Ok(Ruling::NotTried(Reason::FineDigits));
    }
    match said.ground.naming.renamed(said.bytes)? {
        Some(named) => rounded_statement(said, named.as_slice(), rounding),
        None => rounded_statement(said, said.bytes, rounding),
    }
}

// A statement with its numbers rounded.
fn rounded_statement(
    said: Said<'_, '_>,
    bytes: &[u8],
    rounding: &mut Rounding,
) -> Result<Ruling, NoMemory> {
    match rounded(said.ground.alloc, bytes, rounding)? {
        Some(new) => Ok(Ruling::Respelled(Reason::Digits, new)),
        None => Ok(Ruling::Stands),
    }
}

/// A ruling with the names and the numbers that the subset has: where the statement stands, it is spelled out, and its names are replaced.
pub(crate) fn with_names(said: Said<'_, '_>, ruling: Ruling) -> Result<Ruling, NoMemory> {
    match ruling {
        Ruling::Stands => renamed_standing(said, Ruling::Stands),
        Ruling::Noticed => renamed_standing(said, Ruling::Noticed),
        Ruling::Put(reason, new) => Ok(Ruling::Put(reason, renamed(said, new)?)),
        Ruling::Respelled(reason, new) => Ok(Ruling::Respelled(reason, renamed(said, new)?)),
        Ruling::Several(reason, new) => Ok(Ruling::Several(reason, new)),
        Ruling::LeftOut(reason) => Ok(Ruling::LeftOut(reason)),
        Ruling::NotTried(reason) => Ok(Ruling::NotTried(reason)),
        Ruling::Replaced(reason) => Ok(Ruling::Replaced(reason)),
    }
}

// A statement that is there with its names replaced.
fn renamed(said: Said<'_, '_>, new: Vec<u8>) -> Result<Vec<u8>, NoMemory> {
    let named = said.ground.naming.renamed(new.as_slice())?;
    Ok(named.unwrap_or(new))
}

// A statement that stands, or what stands for it because of its names and numbers.
fn renamed_standing(said: Said<'_, '_>, ruling: Ruling) -> Result<Ruling, NoMemory> {
    if let Some(new) = said.ground.naming.renamed(said.bytes)? {
        return Ok(Ruling::Respelled(Reason::LongNames, new));
    }
    match said.ground.plains.get(said.row) {
        Some(plain) if !plain.is_empty() => Ok(Ruling::Respelled(
            Reason::Exponents,
            joined(said.ground.alloc, &[plain.as_slice()])?,
        )),
        _ => Ok(ruling),
    }
}
