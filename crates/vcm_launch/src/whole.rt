//! What a launch asks for of a producer's text, as words of a command line.

use json::Value;
use std::alloc::{AllocError, Global};
use vcm_wire::Request;

// The keys of a launch that are options of the command line: those that stand alone, those with one text, and those with one text or several.
const FLAGS: [&str; 2] = ["auto", "approach"];

const TEXTS: [&str; 4] = ["apprch", "retrct", "search", "table"];

const LISTS: [&str; 3] = ["frame", "given", "harmless"];

/// Why a launch isn't put as a command line.
pub(crate) enum Unput {
    /// It is refused, and this is why.
    Refused(&'static str),
    NoMemory,
}

impl From<AllocError> for Unput {
    fn from(_error: AllocError) -> Unput {
        Unput::NoMemory
    }
}

const WRONG: Unput = Unput::Refused(
    "frame, given and harmless are texts or lists of texts; apprch, retrct, search and table are texts",
);

/// Whether a launch has one of these keys.
fn has_one(request: &Request<'_, '_>, keys: &[&str]) -> bool {
    for key in keys {
        if request.argument(key).is_some() {
            return true;
        }
    }
    false
}

/// Whether a launch has a key that is about a producer's text.
pub(crate) fn says_of_whole(request: &Request<'_, '_>) -> bool {
    has_one(request, &FLAGS) || has_one(request, &TEXTS) || has_one(request, &LISTS)
}

// Adds a word.
fn put_word(alloc: Global, words: &mut Vec<String>, pieces: &[&str]) -> Result<(), Unput> {
    let mut word = String::new(alloc);
    for piece in pieces {
        word.push_str(piece)?;
    }
    match words.push(word) {
        Ok(()) => Ok(()),
        Err(_) => Err(Unput::NoMemory),
    }
}

// Adds an option that stands alone, where the key is on.
fn put_flag(
    alloc: Global,
    words: &mut Vec<String>,
    request: &Request<'_, '_>,
    key: &str,
) -> Result<(), Unput> {
    if request.argument(key).and_then(Value::as_bool) == Some(true) {
        put_word(alloc, words, &["--", key])?;
    }
    Ok(())
}

// Adds an option with this text.
fn put_text(
    alloc: Global,
    words: &mut Vec<String>,
    key: &str,
    value: &Value<'_>,
) -> Result<(), Unput> {
    match value.as_str() {
        Some(text) => put_word(alloc, words, &["--", key, "=", text]),
        None => Err(WRONG),
    }
}

// Adds the options of a key: one for each text.
fn put_texts(
    alloc: Global,
    words: &mut Vec<String>,
    request: &Request<'_, '_>,
    key: &str,
) -> Result<(), Unput> {
    match request.argument(key) {
        None => Ok(()),
        Some(Value::Array(items)) => {
            for item in items {
                put_text(alloc, words, key, item)?;
            }
            Ok(())
        }
        Some(value) => put_text(alloc, words, key, value),
    }
}

/// The words of a command line that asks for what a launch with the key `whole` does.
pub(crate) fn words_of(
    alloc: Global,
    request: &Request<'_, '_>,
    program: &str,
    part: &str,
) -> Result<Vec<String>, Unput> {
    let mut words = Vec::new(alloc);
    for word in &["vcm", "debug", program, part, "--whole"] {
        put_word(alloc, &mut words, &[word])?;
    }
    for key in &FLAGS {
        put_flag(alloc, &mut words, request, key)?;
    }
    for key in &TEXTS {
        match request.argument(key) {
            Some(value) => put_text(alloc, &mut words, key, value)?,
            None => {}
        }
    }
    for key in &LISTS {
        put_texts(alloc, &mut words, request, key)?;
    }
    Ok(words)
}
