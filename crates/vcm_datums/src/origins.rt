//! Frames whose origins lie on datums.

ghost use Rattle.std.specs.Prelude.{◌≡◌, ◌++◌, List, Some, None, IfOk, OnOk, option_map};
ghost use Rattle.std.specs.List.{flat_map};
ghost use Rattle.vcm_datums.specs.Datums.{axis_of, origin_at, next_origin, is_apart, are_apart, origins_of, origins_at, made_on, made_by, made_in};

use crate::datums::{Datum, feature_for};
use std::alloc::Global;
use vcm_heads::{Mark, major_at, past, run_at, title_at};
use vcm_items::Name;
use vcm_lines::{Logical, Phrase};
use vcm_num::{NoMemory, is, look_up};
use vcm_spec::FrameAxis;

/// An origin of a frame.
#[derive(Drop)]
pub struct Origin {
    /// The axis that it is along.
    pub axis: FrameAxis,
    /// The feature that it lies on.
    pub feature: Name,
}

/// The origins of a frame.
#[derive(Drop)]
pub struct Origins {
    pub first: Origin,
    pub second: Option<Origin>,
    pub third: Option<Origin>,
}

/// A frame that is made by its origins.
#[derive(Drop)]
pub struct Made {
    /// The line that makes it.
    pub line: u32,
    /// Its origins.
    pub origins: Origins,
}

// The axis of an origin by its word.
fn axis_of(word: &[u8]) -> Option<FrameAxis>
    ensures { result ≡ axis_of word.now }
{
    look_up(
        &[
            (b"XORIG", FrameAxis::X),
            (b"YORIG", FrameAxis::Y),
            (b"ZORIG", FrameAxis::Z),
        ],
        word,
    )
}

// An origin, and the words behind it.
fn origin_at<'a>(datums: &[Datum], words: &Phrase<'a>) -> Option<(Origin, Phrase<'a>)>
    ensures { result ≡ origin_at datums.now words.now }
{
    let (name, rest) = title_at(b"DAT", words)?;
    let more = past(Mark::Comma, &rest)?;
    let (word, last) = run_at(&more)?;
    let axis = axis_of(word)?;
    let feature = feature_for(datums, name)?;
    Some((Origin { axis, feature }, last))
}

// One more origin behind a comma, and the words behind it, if there are words.
fn next_origin<'a>(datums: &[Datum], words: Phrase<'a>) -> Option<(Option<Origin>, Phrase<'a>)>
    ensures { result ≡ next_origin datums.now words.entry }
{
    if words.split_first().is_none() {
        return Some((None, words));
    }
    let rest = past(Mark::Comma, &words)?;
    let (origin, last) = origin_at(datums, &rest)?;
    Some((Some(origin), last))
}

// Whether an origin lies along another axis than another one, if that is there.
fn is_apart(origin: &Origin, other: &Option<Origin>) -> bool
    ensures { result ≡ is_apart origin.now other.now }
{
    match other {
        None => true,
        Some(other) => match (origin.axis, other.axis) {
            (FrameAxis::X, FrameAxis::X) => false,
            (FrameAxis::Y, FrameAxis::Y) => false,
            (FrameAxis::Z, FrameAxis::Z) => false,
            _ => true,
        },
    }
}

// The same of two that may be there.
fn are_apart(origin: &Option<Origin>, other: &Option<Origin>) -> bool
    ensures { result ≡ are_apart origin.now other.now }
{
    match origin {
        None => true,
        Some(origin) => is_apart(origin, other),
    }
}

// One, two or three origins along different axes, with nothing behind them.
fn origins_of(
    first: Origin,
    second: Option<Origin>,
    third: Option<Origin>,
    rest: &Phrase<'_>,
) -> Option<Origins>
    ensures { result ≡ origins_of first second third rest.now }
{
    if rest.split_first().is_some() {
        return None;
    }
    if is_apart(&first, &second) && is_apart(&first, &third) && are_apart(&second, &third) {
        Some(Origins {
            first,
            second,
            third,
        })
    } else {
        None
    }
}

// The origins of a frame.
fn origins_at(datums: &[Datum], behind: &Phrase<'_>) -> Option<Origins>
    ensures { result ≡ origins_at datums.now behind.now }
{
    let fields = past(Mark::Slash, behind)?;
    let (first, rest) = origin_at(datums, &fields)?;
    let (second, more) = next_origin(datums, rest)?;
    let (third, last) = next_origin(datums, more)?;
    origins_of(first, second, third, &last)
}

// The frame that a statement makes by its origins, if it does, behind others.
fn add_made(out: &mut Vec<Made>, datums: &[Datum], logical: &Logical) -> Result<(), NoMemory>
    ensures { OnOk result (out.new.items ≡ out.old.items ++ made_by datums.now logical.now) }
{
    let (major, behind) = major_at(&Phrase::of(logical));
    if !is(major, b"DATSET") {
        return Ok(());
    }
    match origins_at(datums, &behind) {
        Some(origins) => {
            let line = logical.line;
            out.push(Made { line, origins })?;
            Ok(())
        }
        None => Ok(()),
    }
}

/// The frames that statements make by their origins.
pub(crate) fn made_in(
    alloc: Global,
    datums: &[Datum],
    lines: &[Logical],
) -> Result<Vec<Made>, NoMemory>
    ensures { IfOk result (λ ms. ms.items ≡ made_in datums.now lines.now) }
{
    let mut out = Vec::new(alloc);
    for logical in lines {
        add_made(&mut out, datums, logical)?;
    }
    Ok(out)
}
