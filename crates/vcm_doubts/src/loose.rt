//! Parameters of macros that stand in quotes, and without them elsewhere than in labels.

ghost use Rattle.std.specs.Prelude.{◌≡◌, ◌++◌, ◌∷◌, [], map, IfOk, OnOk, if◌then◌else◌};
ghost use Rattle.std.specs.List.{flat_map};
ghost use Rattle.vcm_lines.specs.Lexemes.{Run, Open};
ghost use Rattle.vcm_doubts.specs.declared.loose.Place.TheVariants.{Elsewhere};
ghost use Rattle.vcm_heads.specs.Rows.{words_of};
ghost use Rattle.vcm_doubts.specs.Doubts.{quoted_by, quoted_behind, begins_label, place_behind, loose_by, loose_words, loose_from};

use crate::names::is_word;
use crate::respelled::raised;
use std::alloc::Global;
use vcm_heads::major_at;
use vcm_lines::{Logical, Phrase, Token};
use vcm_num::{Items, NoMemory, is};

/// Where a word stands.
#[derive(Clone, Copy)]
pub(crate) enum Place {
    /// In the parentheses of a label.
    InLabel,
    /// Behind the word with which a label begins.
    BehindHead,
    Elsewhere,
}

// The texts of words in quotes, in upper case.
fn add_quoted(alloc: Global, out: &mut Items<Items<u8>>, words: &Phrase<'_>) -> Result<(), NoMemory>
    ensures { OnOk result (out.new ≡ out.old ++ flat_map quoted_by words.now) }
{
    match words.split_first() {
        None => Ok(()),
        Some((Token::Quoted(text), rest)) => {
            out.push(raised(alloc, text)?)?;
            add_quoted(alloc, out, &rest)
        }
        Some((_, rest)) => add_quoted(alloc, out, &rest),
    }
}

// The parameters in quotes of the macro that is open behind a statement.
fn quoted_behind(
    alloc: Global,
    names: Items<Items<u8>>,
    words: &Phrase<'_>,
) -> Result<Items<Items<u8>>, NoMemory>
    ensures { IfOk result (λ ns. ns ≡ quoted_behind names words.now) }
{
    let (major, _) = major_at(words);
    if is(major, b"MACRO") {
        let mut quoted = Items::new(alloc);
        add_quoted(alloc, &mut quoted, words)?;
        return Ok(quoted);
    }
    if is(major, b"ENDMAC") {
        Ok(Items::new(alloc))
    } else {
        Ok(names)
    }
}

// Whether a word begins labels.
fn begins_label(word: &[u8]) -> bool
    ensures { result ≡ begins_label word.now }
{
    is(word, b"F")
        || is(word, b"FA")
        || is(word, b"D")
        || is(word, b"DA")
        || is(word, b"DAT")
        || is(word, b"M")
        || is(word, b"S")
        || is(word, b"T")
        || is(word, b"TA")
}

// Where the word behind this one stands.
fn place_behind_run(place: Place, word: &[u8]) -> Place
    ensures { result ≡ place_behind place (Run word.now) }
{
    if begins_label(word) {
        Place::BehindHead
    } else {
        Place::Elsewhere
    }
}

// Where the word behind an opening parenthesis stands.
fn place_behind_open(place: Place) -> Place
    ensures { result ≡ place_behind place Open }
{
    match place {
        Place::BehindHead => Place::InLabel,
        _ => Place::Elsewhere,
    }
}

// Whether a word that is among these names stands in no label.
fn stands_loose(names: &[Items<u8>], place: Place, word: &[u8]) -> bool
    ensures { loose_by names.now place (Run word.now) ≡ (if result then word.now ∷ [] else []) }
{
    match place {
        Place::InLabel => false,
        _ => is_word(names, word),
    }
}

// A word that is among these names, and stands in no label.
fn add_word(
    alloc: Global,
    out: &mut Items<Items<u8>>,
    names: &[Items<u8>],
    place: Place,
    word: &[u8],
) -> Result<(), NoMemory>
    ensures { OnOk result (out.new ≡ out.old ++ loose_by names.now place (Run word.now)) }
{
    if stands_loose(names, place, word) {
        out.push(Items::from_slice(alloc, word)?)?;
    }
    Ok(())
}

// The words from such a place on that are among these names, and stand in no label.
fn add_loose(
    alloc: Global,
    out: &mut Items<Items<u8>>,
    names: &[Items<u8>],
    place: Place,
    words: &Phrase<'_>,
) -> Result<(), NoMemory>
    ensures { OnOk result (out.new ≡ out.old ++ loose_words names.now place words.now) }
{
    match words.split_first() {
        None => Ok(()),
        Some((Token::Run(word), rest)) => {
            add_word(alloc, out, names, place, word)?;
            let behind = place_behind_run(place, word);
            add_loose(alloc, out, names, behind, &rest)
        }
        Some((Token::Open, rest)) => {
            let behind = place_behind_open(place);
            add_loose(alloc, out, names, behind, &rest)
        }
        Some((_, rest)) => add_loose(alloc, out, names, Place::Elsewhere, &rest),
    }
}

/// The parameters that a macro has in quotes, and whose names stand in its body without them, in no label.
pub(crate) fn loose_in(alloc: Global, lines: &[Logical]) -> Result<Items<Items<u8>>, NoMemory>
    ensures { IfOk result (λ ns. ns ≡ loose_from [] lines.now) }
{
    let mut names = Items::new(alloc);
    let mut out = Items::new(alloc);
    for logical in lines {
        let words = Phrase::of(logical);
        let known = names.as_slice();
        add_loose(alloc, &mut out, known, Place::Elsewhere, &words)?;
        names = quoted_behind(alloc, names, &words)?;
    }
    Ok(out)
}
