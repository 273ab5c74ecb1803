//! The places of a statement's operands. Each is read exactly, or for its shape alone: then whatever has the shape of a number
//! stands for one.

ghost use Rattle.std.specs.Prelude.{◌≡◌, ◌^◌, ◌<◌, ◌==◌, Some, None, MatchOption};
ghost use Rattle.vcm_words.specs.Numbers.{number};
ghost use Rattle.vcm_num.specs.Words.{look_up};
ghost use Rattle.vcm_words.specs.WordReaders.{one, rows_of};
ghost use Rattle.vcm_words.specs.Enclosed.{opening};
ghost use Rattle.vcm_code.specs.Shape.{axes, directions, settings, sources, frame_axes};
ghost use Rattle.vcm_words.specs.Operands.{lettered_at, number_at, axis_text, direction_text, setting_text, source_text, turn_text, quarters_of, quarters_at, part_of, part_at, quoted_in, text_at};

use crate::items::before_end;
use crate::numbers::{long, short, small};
use crate::slices::TextWords;
use crate::words::{Words, table_word};
use vcm_num::{Axis, LONGEST_TEXT};
use vcm_spec::{FeatureWord, FrameAxis, Quarters, Setting, Source, are_text_bytes};

// What stands behind a letter, and the words behind it.
fn behind<'a>(letter: u8, words: &Words<'a>) -> Option<(&'a [u8], Words<'a>)>
    ensures { MatchOption result (one (opening letter) words.now ≡ None) (λ x. one (opening letter) words.now ≡ Some (x.0.now, x.1)) }
{
    let (word, rest) = words.split_first()?;
    match word {
        [] => None,
        [first, after @ ..] => {
            if *first == letter {
                Some((after, rest))
            } else {
                None
            }
        }
    }
}

/// An index of 16 bits behind a letter, and the words behind it.
#[tactic(auto, using(crate::proofs::WordLaws::behind_mark))]
pub fn lettered<'a>(exact: bool, letter: u8, words: &Words<'a>) -> Option<(u16, Words<'a>)>
    ensures { result ≡ lettered_at exact letter (2 ^ 16) words.now }
{
    let (digits, rest) = behind(letter, words)?;
    Some((short(exact, digits)?, rest))
}

/// The number of a statement, as a target, and the words behind it.
#[tactic(auto, using(crate::proofs::WordLaws::behind_mark))]
pub fn target<'a>(exact: bool, words: &Words<'a>) -> Option<(u32, Words<'a>)>
    ensures { result ≡ lettered_at exact 64 (2 ^ 32) words.now }
{
    let (digits, rest) = behind(b'@', words)?;
    Some((long(exact, digits)?, rest))
}

/// The number of a loop's pair, 0 to 31, and the words behind it.
#[tactic(auto, using(crate::proofs::WordLaws::behind_mark))]
pub fn pair<'a>(exact: bool, words: &Words<'a>) -> Option<(u8, Words<'a>)>
    ensures { result ≡ lettered_at exact 76 32 words.now }
{
    let (digits, rest) = behind(b'L', words)?;
    Some((small(exact, 32, digits)?, rest))
}

/// A number of 32 bits, and the words behind it.
pub fn count<'a>(exact: bool, words: &Words<'a>) -> Option<(u32, Words<'a>)>
    ensures { result ≡ number_at exact (2 ^ 32) words.now }
{
    let (word, rest) = words.split_first()?;
    Some((long(exact, word)?, rest))
}

// The quarter turns of a number; above 2 they are three.
fn quarters_of(number: u8) -> Quarters
    ensures { result ≡ quarters_of number }
{
    match number {
        0 => Quarters::Zero,
        1 => Quarters::One,
        2 => Quarters::Two,
        _ => Quarters::Three,
    }
}

/// A number of quarter turns, 0 to 3, and the words behind it.
pub fn quarters<'a>(exact: bool, words: &Words<'a>) -> Option<(Quarters, Words<'a>)>
    ensures { result ≡ quarters_at exact words.now }
{
    let (word, rest) = words.split_first()?;
    let number = small(exact, 4, word)?;
    Some((quarters_of(number), rest))
}

// The word of a feature of a number, the last one of all others.
fn part_of(number: u8) -> FeatureWord
    ensures { result ≡ part_of number }
{
    match number {
        3 => FeatureWord::X,
        4 => FeatureWord::Y,
        5 => FeatureWord::Z,
        6 => FeatureWord::I,
        7 => FeatureWord::J,
        _ => FeatureWord::K,
    }
}

/// A word of a feature by its number, 3 to 8, and the words behind it.
pub fn part<'a>(exact: bool, words: &Words<'a>) -> Option<(FeatureWord, Words<'a>)>
    ensures { result ≡ part_at exact words.now }
{
    let (word, rest) = words.split_first()?;
    let number = small(exact, 9, word)?;
    if exact && number < 3 {
        return None;
    }
    Some((part_of(number), rest))
}

/// A direction, and the words behind it.
pub fn axis<'a>(words: &Words<'a>) -> Option<(Axis, Words<'a>)>
    ensures { result ≡ one (look_up (rows_of axis_text axes)) words.now }
{
    table_word(
        &[
            (b"+X", Axis::PlusX),
            (b"-X", Axis::MinusX),
            (b"+Y", Axis::PlusY),
            (b"-Y", Axis::MinusY),
            (b"+Z", Axis::PlusZ),
            (b"-Z", Axis::MinusZ),
        ],
        words,
    )
}

/// The direction of a measurement, none where it is the nominal feature's, and the words behind it.
pub fn direction<'a>(words: &Words<'a>) -> Option<(Option<Axis>, Words<'a>)>
    ensures { result ≡ one (look_up (rows_of direction_text directions)) words.now }
{
    table_word(
        &[
            (b"NOM", None),
            (b"+X", Some(Axis::PlusX)),
            (b"-X", Some(Axis::MinusX)),
            (b"+Y", Some(Axis::PlusY)),
            (b"-Y", Some(Axis::MinusY)),
            (b"+Z", Some(Axis::PlusZ)),
            (b"-Z", Some(Axis::MinusZ)),
        ],
        words,
    )
}

/// A setting of the probe, and the words behind it.
pub fn setting<'a>(words: &Words<'a>) -> Option<(Setting, Words<'a>)>
    ensures { result ≡ one (look_up (rows_of setting_text settings)) words.now }
{
    table_word(
        &[
            (b"APPRCH", Setting::Approach),
            (b"RETRCT", Setting::Retract),
            (b"SEARCH", Setting::Search),
            (b"DEPTH", Setting::Depth),
        ],
        words,
    )
}

/// Whether the nominal or the actual feature is meant, and the words behind it.
pub fn source<'a>(words: &Words<'a>) -> Option<(Source, Words<'a>)>
    ensures { result ≡ one (look_up (rows_of source_text sources)) words.now }
{
    table_word(
        &[(b"NOMINAL", Source::Nominal), (b"ACTUAL", Source::Actual)],
        words,
    )
}

/// The axis of a turn, and the words behind it.
pub fn turn<'a>(words: &Words<'a>) -> Option<(FrameAxis, Words<'a>)>
    ensures { result ≡ one (look_up (rows_of turn_text frame_axes)) words.now }
{
    table_word(
        &[
            (b"X", FrameAxis::X),
            (b"Y", FrameAxis::Y),
            (b"Z", FrameAxis::Z),
        ],
        words,
    )
}

// What stands between apostrophes.
#[tactic(auto, unfolding(crate::specs::Operands::quoted_in))]
fn quoted<'a>(exact: bool, bytes: &'a [u8]) -> Option<TextWords<'a>>
    ensures { result ≡ quoted_in exact bytes.now }
{
    match bytes {
        [] => None,
        [first, rest @ ..] => {
            if *first != b'\'' {
                return None;
            }
            let inside = before_end(b'\'', rest)?;
            if exact && inside.len() > LONGEST_TEXT {
                return None;
            }
            if !are_text_bytes(inside) {
                return None;
            }
            Some(TextWords::new(inside))
        }
    }
}

/// A text, which takes all words that are left.
pub fn text<'a>(exact: bool, words: &Words<'a>) -> Option<(TextWords<'a>, Words<'a>)>
    ensures { result ≡ text_at exact words.now }
{
    let bytes = words.whole()?;
    let text = quoted(exact, bytes)?;
    Some((text, Words::none()))
}
