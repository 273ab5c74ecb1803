//! What expressions hang on.

use vcm_classes::Facts;
use vcm_num::NoMemory;
use vcm_sentences::{has_fine_digits, has_function};
use vcm_spelling::words_in;
use vcm_standard::Reason;

// Whether a word is a number.
fn is_number(word: &[u8]) -> bool {
    match word {
        [first, ..] => first.is_ascii_digit(),
        [] => true,
    }
}

/// Whether an unknown variable stands in bytes.
pub(crate) fn uses_unknown<'a>(facts: &Facts<'a>, bytes: &'a [u8]) -> bool {
    if facts.knows_all() {
        return false;
    }
    let mut words = words_in(bytes);
    for _ in 0..bytes.len() {
        match words.next_word() {
            None => return false,
            Some(word) if !is_number(word) && facts.is_unknown(word) => return true,
            Some(_) => {}
        }
    }
    false
}

/// Why an expression can't be carried out, if it can't; `is_exact` says whether digits behind the micrometre are a reason.
pub(crate) fn untried_value<'a>(
    facts: &Facts<'a>,
    bytes: &'a [u8],
    is_exact: bool,
) -> Option<Reason> {
    if has_function(bytes) {
        Some(Reason::Functions)
    } else if uses_unknown(facts, bytes) {
        Some(Reason::UnknownValues)
    } else if is_exact && has_fine_digits(bytes) {
        Some(Reason::FineDigits)
    } else {
        None
    }
}

/// All variables in a field that is no text are unknown, from here on or everywhere.
pub(crate) fn lose_words<'a>(
    facts: &mut Facts<'a>,
    field: &'a [u8],
    is_everywhere: bool,
) -> Result<(), NoMemory> {
    let mut words = words_in(field);
    for _ in 0..field.len() {
        match words.next_word() {
            None => return Ok(()),
            Some(word) if is_number(word) => {}
            Some(word) => facts.lose(word, is_everywhere)?,
        }
    }
    Ok(())
}

/// All variables in fields are unknown, from here on or everywhere.
pub(crate) fn lose_fields<'a>(
    facts: &mut Facts<'a>,
    fields: &[&'a [u8]],
    is_everywhere: bool,
) -> Result<(), NoMemory> {
    for field in fields {
        if !field.starts_with(b"'") {
            lose_words(facts, field, is_everywhere)?;
        }
    }
    Ok(())
}
