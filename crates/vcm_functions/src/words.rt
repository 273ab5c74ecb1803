//! Words in expressions.

ghost use Rattle.std.specs.Prelude.{◌≡◌, IfOk};
ghost use Rattle.vcm_lines.specs.Bytes.{is_blank};
ghost use Rattle.vcm_functions.specs.Words.{is_in_word, word_of};

use std::alloc::Global;
use vcm_num::NoMemory;

/// Whether a byte stands for nothing.
pub(crate) fn is_blank(byte: u8) -> bool
    ensures { result ≡ is_blank byte }
{
    byte == b' ' || byte == b'\t'
}

/// Whether a byte is one of a word: a letter, a digit, or an underscore.
pub(crate) fn is_in_word(byte: u8) -> bool
    ensures { result ≡ is_in_word byte }
{
    byte.is_ascii_alphabetic() || byte.is_ascii_digit() || byte == b'_'
}

/// The word that bytes are: without blanks, in upper case.
pub(crate) fn word_of(alloc: Global, bytes: &[u8]) -> Result<Vec<u8>, NoMemory>
    ensures { IfOk result (λ w. w.items ≡ word_of bytes.now) }
{
    let mut word = Vec::new(alloc);
    for byte in bytes {
        if !is_blank(*byte) {
            word.push(byte.to_ascii_uppercase())?;
        }
    }
    Ok(word)
}
