//! Expressions with functions.

ghost use Rattle.std.specs.Prelude.{◌≡◌, IfOk, OnOk};
ghost use Rattle.vcm_functions.specs.Calls.{is_named};
ghost use Rattle.vcm_functions.specs.Values.{function_of};
ghost use Rattle.vcm_functions.specs.Folded.{word_behind, has_function, folded};

use crate::calls::{eight_passes, is_named};
use crate::relations::opened_text;
use crate::words::{is_blank, is_in_word};
use std::alloc::Global;
use vcm_num::NoMemory;

// The word that is read behind a byte.
fn read_word(word: &mut Vec<u8>, byte: u8) -> Result<(), NoMemory>
    ensures { OnOk result (word.new.items ≡ word_behind word.old.items byte) }
{
    if is_in_word(byte) {
        word.push(byte.to_ascii_uppercase())?;
        return Ok(());
    }
    if !is_blank(byte) {
        word.clear();
    }
    Ok(())
}

/// Whether the word of a function stands before a parenthesis, in a quoted text too.
///
/// # Errors
///
/// Out of memory.
#[tactic(auto, unfolding(crate::specs::Folded::has_function))]
pub fn has_function(alloc: Global, bytes: &[u8]) -> Result<bool, NoMemory>
    ensures { IfOk result (λ it. it ≡ has_function bytes.now) }
{
    let mut word = Vec::new(alloc);
    for byte in bytes {
        if *byte == b'(' && is_named(&word) {
            return Ok(true);
        }
        read_word(&mut word, *byte)?;
    }
    Ok(false)
}

/// An expression, as the bytes of one field, with each function that has a form without it in that form: a call of a function by a decimal literal is written as its value,
/// to the nearest billionth, and a relation of an absolute value with something as two relations. Other functions, and what stands in quoted texts, stay as they are written.
///
/// # Errors
///
/// Out of memory.
pub fn folded(alloc: Global, bytes: &[u8]) -> Result<Vec<u8>, NoMemory>
    ensures { IfOk result (λ written. written.items ≡ folded bytes.now) }
{
    if has_function(alloc, bytes)? {
        let called = eight_passes(alloc, bytes)?;
        opened_text(alloc, &called)
    } else {
        let mut written = Vec::new(alloc);
        written.extend_from_slice(bytes)?;
        Ok(written)
    }
}
