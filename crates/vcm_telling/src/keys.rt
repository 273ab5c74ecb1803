//! The keys that nothing uses, as they are told.

use std::alloc::Global;
use std::fmt::Write as _;
use vcm_boxes::ShortName;
use vcm_keys::{KeyPlace, unused_keys};
use vcm_num::NoMemory;

// A key as it is told.
fn key_words(key: &Option<ShortName>) -> &str {
    match key {
        Some(label) => std::str::from_utf8(label.as_bytes()).unwrap_or("a key"),
        None => "a key",
    }
}

// The notice of a key that nothing uses.
fn put_notice(text: &mut String, place: &KeyPlace) -> Result<(), NoMemory> {
    text.push_str("notice")?;
    let line = place.line;
    if line != 0 {
        write!(text, " line {line}")?;
    }
    let key = key_words(&place.key);
    write!(text, ": {key}")?;
    let block = place.block;
    if block != 0 {
        write!(text, " in block {block}")?;
    }
    text.push_str(" is not used\n")?;
    Ok(())
}

/// The notices of a part file, a line for each place of a key that nothing uses: `notice line 5: tipp is not used`.
///
/// # Errors
///
/// Out of memory.
pub fn unused_text(alloc: Global, bytes: &[u8]) -> Result<String, NoMemory> {
    let places = unused_keys(alloc, bytes)?;
    let mut text = String::new(alloc);
    for place in &places {
        put_notice(&mut text, place)?;
    }
    Ok(text)
}
