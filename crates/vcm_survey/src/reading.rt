//! A producer's text that is read: what becomes of its statements, and which lines belong to them.

use std::alloc::Global;
use vcm_num::NoMemory;
use vcm_rules::{Options, Surveyed, surveyed};
use vcm_sentences::{Owner, sentences_of};

/// A producer's text that is read.
#[derive(Drop)]
pub struct Reading {
    /// What becomes of its statements, in order.
    pub surveyed: Surveyed,
    /// What each of its lines is to them.
    pub owners: Vec<Owner>,
    /// A line for each option that names nothing in the text.
    pub missing: Vec<u8>,
}

/// Reads a producer's text.
///
/// # Errors
///
/// Out of memory.
pub fn read_text(alloc: Global, text: &[u8], options: &Options) -> Result<Reading, NoMemory> {
    let found = sentences_of(alloc, text)?;
    let mut missing = Vec::new(alloc);
    options.put_missing(found.items.as_slice(), &mut missing)?;
    let surveyed = surveyed(alloc, text, found.items.as_slice(), options)?;
    Ok(Reading {
        surveyed,
        owners: found.owners,
        missing,
    })
}
