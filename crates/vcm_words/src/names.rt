//! The tables of names in a listing.

ghost use Rattle.std.specs.Prelude.{◌≡◌};
ghost use Rattle.vcm_num.specs.Words.{look_up};
ghost use Rattle.vcm_words.specs.WordReaders.{one, rows_of};
ghost use Rattle.vcm_code.specs.Shape.{kinds};
ghost use Rattle.vcm_words.specs.Rows.{kind_text, name_at, variable_name_at, entry_at, indexed_at};

use crate::places::count;
use crate::words::{Words, table_word};
use vcm_items::{Name, Variable, is_name, is_variable_name};
use vcm_num::Kind;

// A name, and the words behind it.
fn name<'a>(words: &Words<'a>) -> Option<(Name, Words<'a>)>
    ensures { result ≡ name_at words.now }
{
    let (word, rest) = words.split_first()?;
    if is_name(word) {
        Some((Name::new(word), rest))
    } else {
        None
    }
}

// The name of a variable, and the words behind it.
#[tactic(auto, using(vcm_items::proofs::NameLemmas::variable_name_is_name))]
fn variable_name<'a>(words: &Words<'a>) -> Option<(Name, Words<'a>)>
    ensures { result ≡ variable_name_at words.now }
{
    let (word, rest) = words.split_first()?;
    if is_variable_name(word) {
        Some((Name::new(word), rest))
    } else {
        None
    }
}

// A kind, and the words behind it.
fn kind<'a>(words: &Words<'a>) -> Option<(Kind, Words<'a>)>
    ensures { result ≡ one (look_up (rows_of kind_text kinds)) words.now }
{
    table_word(
        &[
            (b"INTGR", Kind::Int),
            (b"REAL", Kind::Real),
            (b"BOOL", Kind::Bool),
        ],
        words,
    )
}

/// A variable with its index, and the words behind it.
#[tactic(auto, unfolding(crate::specs::Rows::entry_at))]
pub(crate) fn entry<'a>(exact: bool, words: &Words<'a>) -> Option<((u32, Variable), Words<'a>)>
    ensures { result ≡ entry_at exact words.now }
{
    let (index, rest) = count(exact, words)?;
    let (kind, rest) = kind(&rest)?;
    let (name, rest) = variable_name(&rest)?;
    let (expansion, rest) = count(exact, &rest)?;
    Some(((index, Variable::new(name, kind, expansion)), rest))
}

/// The name of a feature or a frame with its index, and the words behind it.
#[tactic(auto, unfolding(crate::specs::Rows::indexed_at))]
pub(crate) fn indexed<'a>(exact: bool, words: &Words<'a>) -> Option<((u32, Name), Words<'a>)>
    ensures { result ≡ indexed_at exact words.now }
{
    let (index, rest) = count(exact, words)?;
    let (name, rest) = name(&rest)?;
    Some(((index, name), rest))
}
