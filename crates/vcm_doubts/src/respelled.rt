//! Names that a text spells in two ways.

ghost use Rattle.std.specs.Prelude.{◌≡◌, ◌∷◌, [], map, IfOk, OnOk};
ghost use Rattle.std.specs.Str.{bytes_eq};
ghost use Rattle.std.specs.List.{list_any, filter};
ghost use Rattle.vcm_lines.specs.Bytes.{upper};
ghost use Rattle.vcm_doubts.specs.Doubts.{is_among};
ghost use Rattle.vcm_doubts.specs.Spellings.{is_lowered, is_respelled, once, respelled, spelled_twice};

use crate::names::is_among;
use crate::spellings::spellings;
use std::alloc::Global;
use vcm_items::Name;
use vcm_lines::upper;
use vcm_num::{Items, NoMemory, is};

// Whether a word has a letter in lower case.
fn is_lowered(word: &[u8]) -> bool
    ensures { result ≡ is_lowered word.now }
{
    word.iter().any(|byte| byte.is_ascii_lowercase())
}

// Whether words are one name, in whatever case.
fn is_one_name(word: &[u8], other: &[u8]) -> bool
    ensures { result ≡ bytes_eq (map upper word.now) (map upper other.now) }
{
    word.eq_ignore_ascii_case(other)
}

// Whether two words are one name, spelled otherwise.
fn is_respelled(word: &[u8], other: &[u8]) -> bool
    ensures { result ≡ is_respelled word.now other.now }
{
    is_one_name(word, other) && !is(word, other)
}

// Whether a word is one of these.
fn is_found(words: &[Items<u8>], word: &[u8]) -> bool
    ensures { result ≡ list_any (bytes_eq word.now) words.now }
{
    words.iter().any(|one| is(word, one.as_slice()))
}

// Whether a word is spelled otherwise among these.
fn is_respelled_in(words: &[Items<u8>], word: &[u8]) -> bool
    ensures { result ≡ list_any (is_respelled word.now) words.now }
{
    words
        .iter()
        .any(|other| is_respelled(word, other.as_slice()))
}

// One more word, where it has a letter in lower case and isn't found yet.
fn add_lowered(alloc: Global, found: &mut Items<Items<u8>>, word: &[u8]) -> Result<(), NoMemory>
    ensures { OnOk result (found.new ≡ once found.old (filter is_lowered (word.now ∷ []))) }
{
    if !is_lowered(word) {
        return Ok(());
    }
    if is_found(found.as_slice(), word) {
        return Ok(());
    }
    found.push(Items::from_slice(alloc, word)?)?;
    Ok(())
}

// The words with a letter in lower case, each once.
fn lowered_once(alloc: Global, words: &[Items<u8>]) -> Result<Items<Items<u8>>, NoMemory>
    ensures { IfOk result (λ found. found ≡ once [] (filter is_lowered words.now)) }
{
    let mut found = Items::new(alloc);
    for word in words {
        add_lowered(alloc, &mut found, word.as_slice())?;
    }
    Ok(found)
}

/// A word as the language reads it.
pub(crate) fn raised(alloc: Global, word: &[u8]) -> Result<Items<u8>, NoMemory>
    ensures { IfOk result (λ bytes. bytes ≡ map upper word.now) }
{
    let mut bytes = Items::new(alloc);
    for byte in word {
        bytes.push(upper(*byte))?;
    }
    Ok(bytes)
}

// Those of these words that are spelled otherwise among all, as the language reads them.
fn respelled(
    alloc: Global,
    all: &[Items<u8>],
    lowered: &[Items<u8>],
) -> Result<Items<Items<u8>>, NoMemory>
    ensures { IfOk result (λ names. names ≡ map (map upper) (filter (λ w. list_any (is_respelled w) all.now) lowered.now)) }
{
    let mut names = Items::new(alloc);
    for word in lowered {
        if is_respelled_in(all, word.as_slice()) {
            names.push(raised(alloc, word.as_slice())?)?;
        }
    }
    Ok(names)
}

// The names that a text spells in two ways, as the language reads them.
fn spelled_twice(alloc: Global, text: &[u8]) -> Result<Items<Items<u8>>, NoMemory>
    ensures { IfOk result (λ names. names ≡ spelled_twice text.now) }
{
    let all = spellings(alloc, text)?;
    let lowered = lowered_once(alloc, all.as_slice())?;
    respelled(alloc, all.as_slice(), lowered.as_slice())
}

// Those of these words that are names.
fn named(alloc: Global, names: &[Name], words: &[Items<u8>]) -> Result<Items<Items<u8>>, NoMemory>
    ensures { IfOk result (λ found. found ≡ filter (is_among names.now) words.now) }
{
    let mut found = Items::new(alloc);
    for word in words {
        if is_among(names, word.as_slice()) {
            found.push(Items::from_slice(alloc, word.as_slice())?)?;
        }
    }
    Ok(found)
}

/// The names among these that a text spells in two ways, as the language reads them.
pub(crate) fn twice_in(
    alloc: Global,
    text: &[u8],
    names: &[Name],
) -> Result<Items<Items<u8>>, NoMemory>
    ensures { IfOk result (λ found. found ≡ filter (is_among names.now) (spelled_twice text.now)) }
{
    let words = spelled_twice(alloc, text)?;
    named(alloc, names, words.as_slice())
}
