//! Bytes that stand for a word of the language: each is read by its table.

ghost use Rattle.std.specs.Prelude.{◌≡◌, Ok, List, ℕ};
ghost use Rattle.vcm_code.specs.Shape.{all_words};
ghost use Rattle.vcm_code.specs.Words.{word_byte};
ghost use Rattle.vcm_fields.specs.Readers.{Gives, Begins, among, any_word_at, word_at, kind_at, axis_at, direction_at, setting_at, source_at, turn_at, quarters_at, part_at};

use crate::fault::ImageFault;
use crate::fields::{byte, known_byte};
use crate::standing::known;
use vcm_code::{Version, Word, has_word};
use vcm_num::{Axis, Kind};
use vcm_spec::{FeatureWord, FrameAxis, Quarters, Setting, Source};

// The word with a byte.
#[inline(always)]
fn word_with(number: u8) -> Result<Word, ImageFault>
    ensures { (rest : List ℕ) → Gives (λ w. (w, rest)) result (among word_byte all_words number rest) }
{
    match vcm_code::word_with(number) {
        Some(word) => Ok(word),
        None => Err(ImageFault::BadField),
    }
}

// The word of a statement, of any version.
#[tactic(auto, unfolding(crate::specs::Readers::any_word_at))]
#[inline(always)]
fn any_word(bytes: &[u8]) -> Result<(Word, &[u8]), ImageFault>
    ensures { Gives (λ x. (x.0, x.1.now)) result (any_word_at bytes.now) }
{
    let (number, rest) = byte(bytes)?;
    Ok((word_with(number)?, rest))
}

/// The word of a statement and the bytes behind it, where it is known that one stands there: whether bytes are left is not tested.
#[inline(always)]
pub fn known_word(bytes: &[u8]) -> (Word, &[u8])
    requires { Begins any_word_at (λ w. Unit {0}) bytes.now }
    ensures { any_word_at bytes.now ≡ Ok (result.0, result.1.now) }
{
    let (number, rest) = known_byte(bytes);
    (known(word_with(number)), rest)
}

/// The word of a statement, which the version has.
///
/// # Errors
///
/// Short; BadField where the version has no such word.
#[inline(always)]
pub(crate) fn word(version: Version, bytes: &[u8]) -> Result<(Word, &[u8]), ImageFault>
    ensures { Gives (λ x. (x.0, x.1.now)) result (word_at version bytes.now) }
{
    let (word, rest) = any_word(bytes)?;
    if !has_word(version, word) {
        return Err(ImageFault::BadField);
    }
    Ok((word, rest))
}

/// A variable's kind.
#[tactic(auto, unfolding(crate::specs::Readers::kind_at))]
pub(crate) fn kind(bytes: &[u8]) -> Result<(Kind, &[u8]), ImageFault>
    ensures { Gives (λ x. (x.0, x.1.now)) result (kind_at bytes.now) }
{
    let (number, rest) = byte(bytes)?;
    match number {
        0 => Ok((Kind::Int, rest)),
        1 => Ok((Kind::Real, rest)),
        2 => Ok((Kind::Bool, rest)),
        _ => Err(ImageFault::BadField),
    }
}

/// The direction of a feature.
///
/// # Errors
///
/// Short; BadField where it is not 0 to 5.
pub fn axis(bytes: &[u8]) -> Result<(Axis, &[u8]), ImageFault>
    ensures { Gives (λ x. (x.0, x.1.now)) result (axis_at bytes.now) }
{
    let (number, rest) = byte(bytes)?;
    match number {
        0 => Ok((Axis::PlusX, rest)),
        1 => Ok((Axis::MinusX, rest)),
        2 => Ok((Axis::PlusY, rest)),
        3 => Ok((Axis::MinusY, rest)),
        4 => Ok((Axis::PlusZ, rest)),
        5 => Ok((Axis::MinusZ, rest)),
        _ => Err(ImageFault::BadField),
    }
}

/// The direction of a measurement; 6 stands for that of the nominal feature.
///
/// # Errors
///
/// Short; BadField where it is not 0 to 6.
pub fn direction(bytes: &[u8]) -> Result<(Option<Axis>, &[u8]), ImageFault>
    ensures { Gives (λ x. (x.0, x.1.now)) result (direction_at bytes.now) }
{
    let (number, rest) = byte(bytes)?;
    match number {
        0 => Ok((Some(Axis::PlusX), rest)),
        1 => Ok((Some(Axis::MinusX), rest)),
        2 => Ok((Some(Axis::PlusY), rest)),
        3 => Ok((Some(Axis::MinusY), rest)),
        4 => Ok((Some(Axis::PlusZ), rest)),
        5 => Ok((Some(Axis::MinusZ), rest)),
        6 => Ok((None, rest)),
        _ => Err(ImageFault::BadField),
    }
}

/// A setting of the probe.
///
/// # Errors
///
/// Short; BadField where it is not 0 to 3.
pub fn setting(bytes: &[u8]) -> Result<(Setting, &[u8]), ImageFault>
    ensures { Gives (λ x. (x.0, x.1.now)) result (setting_at bytes.now) }
{
    let (number, rest) = byte(bytes)?;
    match number {
        0 => Ok((Setting::Approach, rest)),
        1 => Ok((Setting::Retract, rest)),
        2 => Ok((Setting::Search, rest)),
        3 => Ok((Setting::Depth, rest)),
        _ => Err(ImageFault::BadField),
    }
}

/// Whether the nominal or the actual feature is meant.
///
/// # Errors
///
/// Short; BadField where it is neither 0 nor 1.
pub fn source(bytes: &[u8]) -> Result<(Source, &[u8]), ImageFault>
    ensures { Gives (λ x. (x.0, x.1.now)) result (source_at bytes.now) }
{
    let (number, rest) = byte(bytes)?;
    match number {
        0 => Ok((Source::Nominal, rest)),
        1 => Ok((Source::Actual, rest)),
        _ => Err(ImageFault::BadField),
    }
}

/// The axis of a turn.
///
/// # Errors
///
/// Short; BadField where it is not 0 to 2.
pub fn turn(bytes: &[u8]) -> Result<(FrameAxis, &[u8]), ImageFault>
    ensures { Gives (λ x. (x.0, x.1.now)) result (turn_at bytes.now) }
{
    let (number, rest) = byte(bytes)?;
    match number {
        0 => Ok((FrameAxis::X, rest)),
        1 => Ok((FrameAxis::Y, rest)),
        2 => Ok((FrameAxis::Z, rest)),
        _ => Err(ImageFault::BadField),
    }
}

/// How many quarter turns.
///
/// # Errors
///
/// Short; BadField where they are not 0 to 3.
pub fn quarters(bytes: &[u8]) -> Result<(Quarters, &[u8]), ImageFault>
    ensures { Gives (λ x. (x.0, x.1.now)) result (quarters_at bytes.now) }
{
    let (number, rest) = byte(bytes)?;
    match number {
        0 => Ok((Quarters::Zero, rest)),
        1 => Ok((Quarters::One, rest)),
        2 => Ok((Quarters::Two, rest)),
        3 => Ok((Quarters::Three, rest)),
        _ => Err(ImageFault::BadField),
    }
}

/// A word of a feature.
///
/// # Errors
///
/// Short; BadField where it is not 3 to 8.
pub fn part(bytes: &[u8]) -> Result<(FeatureWord, &[u8]), ImageFault>
    ensures { Gives (λ x. (x.0, x.1.now)) result (part_at bytes.now) }
{
    let (number, rest) = byte(bytes)?;
    match number {
        3 => Ok((FeatureWord::X, rest)),
        4 => Ok((FeatureWord::Y, rest)),
        5 => Ok((FeatureWord::Z, rest)),
        6 => Ok((FeatureWord::I, rest)),
        7 => Ok((FeatureWord::J, rest)),
        8 => Ok((FeatureWord::K, rest)),
        _ => Err(ImageFault::BadField),
    }
}
