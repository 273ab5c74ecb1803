//! The lines of a listing.

ghost use Rattle.std.specs.Prelude.{◌≡◌, ◌∷◌, [], ℕ, List, Some, None, true, false};
ghost use Rattle.vcm_code.specs.declared.version.Version.{Version as VersionOf};
ghost use Rattle.vcm_words.specs.declared.row.Heading.TheVariants as headings;
ghost use Rattle.vcm_num.specs.Words.{look_up};
ghost use Rattle.vcm_words.specs.WordReaders.{rows_of};
ghost use Rattle.vcm_words.specs.Rows.{heading_text, all_headings, version_in, numbered_at, row_after, row_of};

use crate::braces::BranchWords;
use crate::names::{entry, indexed};
use crate::numbers::is_figures;
use crate::places::count;
use crate::row::{Heading, Row};
use crate::slices::{ItemWords, TextWords};
use crate::statements::{BorrowedStatement, line};
use crate::words::Words;
use vcm_code::Version;
use vcm_num::look_up;

/// A line of a listing.
pub type BorrowedRow<'a> = Row<ItemWords<'a>, TextWords<'a>, BranchWords<'a>>;

// The version with this number, or the shape of a number in its place.
fn version(exact: bool, word: &[u8]) -> Option<Version>
    ensures { result ≡ version_in exact word.now }
{
    if exact {
        look_up(&[(b"1", Version::One), (b"2", Version::Two)], word)
    } else if is_figures(word) {
        Some(Version::One)
    } else {
        None
    }
}

// A statement of a version with its number, and the words behind it.
#[tactic(auto, unfolding(crate::specs::Rows::numbered_at))]
fn numbered<'a>(
    version: Version,
    exact: bool,
    words: &Words<'a>,
) -> Option<((u32, BorrowedStatement<'a>), Words<'a>)>
    ensures { result ≡ numbered_at version exact words.now }
{
    let (number, rest) = count(exact, words)?;
    let (statement, rest) = line(version, exact, &rest)?;
    Some(((number, statement), rest))
}

// The word that a line begins with, where it is no statement.
fn heading(word: &[u8]) -> Option<Heading>
    ensures { result ≡ look_up (rows_of heading_text all_headings) word.now }
{
    look_up(
        &[
            (b"VCM-LISTING", Heading::Head),
            (b"VAR", Heading::Variables),
            (b"FEATURE", Heading::Features),
            (b"FRAME", Heading::Frames),
        ],
        word,
    )
}

// Whether no words are left.
fn is_end(words: &Words<'_>) -> bool
    ensures so { result ≡ true → words.now ≡ [] }
    ensures not { result ≡ false → (w : List ℕ) × (ws : List (List ℕ)) × (words.now ≡ w ∷ ws) }
{
    match words.split_first() {
        None => true,
        Some(_) => false,
    }
}

// The first line, behind its word.
#[tactic(auto, unfolding(crate::specs::Rows::row_after))]
fn head<'a>(exact: bool, word: &[u8], words: &Words<'a>) -> Option<BorrowedRow<'a>>
    ensures { (v : VersionOf) → result ≡ row_after v exact (Some headings.Head) word.now words.now }
{
    let (number, rest) = words.split_first()?;
    let version = version(exact, number)?;
    if is_end(&rest) {
        Some(Row::Head(version))
    } else {
        None
    }
}

// A variable's line, behind its word.
#[tactic(auto, unfolding(crate::specs::Rows::row_after))]
fn variable<'a>(exact: bool, word: &[u8], words: &Words<'a>) -> Option<BorrowedRow<'a>>
    ensures { (v : VersionOf) → result ≡ row_after v exact (Some headings.Variables) word.now words.now }
{
    let ((index, variable), rest) = entry(exact, words)?;
    if is_end(&rest) {
        Some(Row::Variable(index, variable))
    } else {
        None
    }
}

// A feature's line, behind its word.
#[tactic(auto, unfolding(crate::specs::Rows::row_after))]
fn feature<'a>(exact: bool, word: &[u8], words: &Words<'a>) -> Option<BorrowedRow<'a>>
    ensures { (v : VersionOf) → result ≡ row_after v exact (Some headings.Features) word.now words.now }
{
    let ((index, name), rest) = indexed(exact, words)?;
    if is_end(&rest) {
        Some(Row::Feature(index, name))
    } else {
        None
    }
}

// A frame's line, behind its word.
#[tactic(auto, unfolding(crate::specs::Rows::row_after))]
fn frame<'a>(exact: bool, word: &[u8], words: &Words<'a>) -> Option<BorrowedRow<'a>>
    ensures { (v : VersionOf) → result ≡ row_after v exact (Some headings.Frames) word.now words.now }
{
    let ((index, name), rest) = indexed(exact, words)?;
    if is_end(&rest) {
        Some(Row::Frame(index, name))
    } else {
        None
    }
}

// The line of a statement of a version.
#[tactic(auto, unfolding(crate::specs::Rows::row_after))]
fn statement<'a>(version: Version, exact: bool, words: &Words<'a>) -> Option<BorrowedRow<'a>>
    ensures { (w : List ℕ) (ws : List (List ℕ)) → words.now ≡ w ∷ ws → result ≡ row_after version exact None w ws }
{
    let ((number, statement), rest) = numbered(version, exact, words)?;
    if is_end(&rest) {
        Some(Row::Numbered(number, statement))
    } else {
        None
    }
}

/// A line of a listing of this version, without its end; read exactly, or for its shape alone: then whatever has the shape of a number
/// stands for one.
#[tactic(auto, unfolding(crate::specs::Rows::row_of))]
pub fn row<'a>(version: Version, exact: bool, line: &'a [u8]) -> Option<BorrowedRow<'a>>
    ensures { result ≡ row_of version exact line.now }
{
    let words = Words::new(line);
    let (first, after) = words.split_first()?;
    match heading(first) {
        Some(Heading::Head) => head(exact, first, &after),
        Some(Heading::Variables) => variable(exact, first, &after),
        Some(Heading::Features) => feature(exact, first, &after),
        Some(Heading::Frames) => frame(exact, first, &after),
        None => statement(version, exact, &words),
    }
}
