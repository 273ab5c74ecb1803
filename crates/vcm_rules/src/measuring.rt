//! Features, and blocks of measuring.

use crate::expressions::untried_value;
use crate::moving::untried_move;
use crate::pages::Page;
use crate::points::{approached_point, point_name, touched_point};
use crate::spelled::{Lengths, standing, with_lengths};
use crate::view::{Features, Ground, Here, Measured, Measuring, Said};
use vcm_classes::{Facts, Frame, Row, Ruling};
use vcm_num::{NoMemory, is};
use vcm_sentences::{enclosed, read_decimal};
use vcm_spelling::{Direction, Named, Rounding, direction_in};
use vcm_standard::Reason;

/// The feature of `F(..)` or `FA(..)`, and whether it is the measured one.
pub(crate) fn feature_in<'a>(field: &'a [u8]) -> Option<(&'a [u8], bool)> {
    match enclosed(field, b"F(") {
        Some(label) => Some((label, false)),
        None => Some((enclosed(field, b"FA(")?, true)),
    }
}

// Whether the fields behind a place are a direction along an axis.
fn is_axis(fields: &[&[u8]]) -> bool {
    match fields {
        [x, y, z] => matches!(direction_in(x, y, z), Direction::Along(_, _)),
        _ => false,
    }
}

// Whether fields are a place with a direction along an axis.
fn has_axis(fields: &[&[u8]]) -> bool {
    match fields {
        [_, _, _, direction @ ..] => is_axis(direction),
        _ => false,
    }
}

// Whether fields are those of a point along an axis.
fn is_axis_point(fields: &[&[u8]]) -> bool {
    match fields {
        [point, cart, place @ ..] => is(point, b"POINT") && is(cart, b"CART") && has_axis(place),
        _ => false,
    }
}

// Whether fields are those of a point.
fn is_point(fields: &[&[u8]]) -> bool {
    match fields {
        [point, ..] => is(point, b"POINT"),
        [] => false,
    }
}

// A feature that is a point along an axis.
fn axis_feature<'a>(
    said: Said<'_, 'a>,
    facts: &Facts<'a>,
    features: &mut Features<'a>,
    rounding: &mut Rounding,
) -> Result<Ruling, NoMemory> {
    match untried_value(facts, said.parts.rest, said.ground.options.is_exact) {
        Some(reason) => {
            features.along.set(said.parts.title, false)?;
            Ok(Ruling::NotTried(reason))
        }
        None => with_lengths(said, Lengths::From(2, 5), rounding),
    }
}

/// FEAT.
pub(crate) fn feature<'a>(
    said: Said<'_, 'a>,
    here: &Here<'a>,
    facts: &Facts<'a>,
    features: &mut Features<'a>,
    rounding: &mut Rounding,
) -> Result<Ruling, NoMemory> {
    let title = said.parts.title;
    let is_along = is_axis_point(said.fields);
    let was_along = features.along.get(title).unwrap_or(true);
    let stays = is_along && (was_along || here.is_outside);
    features.along.set(title, stays)?;
    if is_along {
        return axis_feature(said, facts, features, rounding);
    }
    Ok(Ruling::LeftOut(if is_point(said.fields) {
        Reason::OtherDirections
    } else {
        Reason::OtherFeatures
    }))
}

/// A feature is measured here.
pub(crate) fn measure<'a>(
    row: usize,
    here: &Here<'a>,
    features: &mut Features<'a>,
    label: &'a [u8],
) -> Result<(), NoMemory> {
    let frame = match here.flow.frame {
        Frame::Known(frame) if here.is_outside => frame,
        _ => u32::MAX,
    };
    features.measured.set(label, Measured { frame, row })
}

// The feature of a MEAS, and whether it is of one point.
fn measured_feature<'a>(fields: &[&'a [u8]]) -> (&'a [u8], bool) {
    match fields {
        [kind, feature, count] => match feature_in(feature) {
            Some((label, false)) => (label, is(kind, b"POINT") && is(count, b"1")),
            _ => (&[], false),
        },
        _ => (&[], false),
    }
}

// What a MEAS of this feature is taken for, where it is tried.
fn measuring_of<'a>(
    said: Said<'_, 'a>,
    here: &Here<'a>,
    features: &Features<'a>,
    label: &'a [u8],
    is_one: bool,
) -> Measuring {
    let Some(outlook) = said.outlook() else {
        return Measuring::Nothing;
    };
    if outlook.points == 0 {
        Measuring::Untried(Reason::Scans)
    } else if is_one
        && outlook.points == 1
        && outlook.is_along_axes
        && features.is_along(here.body, label)
    {
        Measuring::Point
    } else {
        Measuring::Approached
    }
}

/// MEAS.
pub(crate) fn begin_measuring<'a>(
    said: Said<'_, 'a>,
    here: &mut Here<'a>,
    features: &mut Features<'a>,
    rounding: &mut Rounding,
) -> Result<Ruling, NoMemory> {
    here.measuring = Measuring::Nothing;
    let untried = match untried_move(said.ground.traits.is_followed, here) {
        Some(Reason::MovedByHand) => Some(Reason::ByHand),
        other => other,
    };
    if let Some(reason) = untried {
        here.measuring = Measuring::Untried(reason);
        return Ok(Ruling::NotTried(reason));
    }
    let (label, is_one) = measured_feature(said.fields);
    let measuring = measuring_of(said, here, features, label, is_one);
    here.measuring = measuring;
    here.feature = label;
    here.begun = said.row;
    match measuring {
        Measuring::Nothing => standing(said, rounding),
        Measuring::Untried(reason) => Ok(Ruling::NotTried(reason)),
        Measuring::Approached => Ok(Ruling::Replaced(Reason::Approached)),
        Measuring::Point => {
            measure(said.row, here, features, label)?;
            standing(said, rounding)
        }
    }
}

// Whether a row has points that are touched.
fn is_touched(row: &Row) -> bool {
    row.lines.is_some()
}

// Whether a row from this one on has points that are touched.
fn has_touched(page: &Page, from: usize) -> bool {
    match page.rows.as_slice().get(from..) {
        Some(rows) => rows.iter().any(is_touched),
        None => false,
    }
}

/// ENDMES.
pub(crate) fn end_measuring<'a>(
    said: Said<'_, 'a>,
    here: &mut Here<'a>,
    features: &mut Features<'a>,
    page: &mut Page,
) -> Result<Ruling, NoMemory> {
    let measuring = here.measuring;
    here.measuring = Measuring::Nothing;
    match measuring {
        Measuring::Nothing => Ok(Ruling::NotTried(Reason::NoDirection)),
        Measuring::Point => standing(said, &mut page.rounding),
        Measuring::Approached => {
            if has_touched(page, here.begun) {
                features.touched.set(here.feature, (here.begun, said.row))?;
            }
            Ok(Ruling::Replaced(Reason::Approached))
        }
        Measuring::Untried(reason) => Ok(Ruling::NotTried(reason)),
    }
}

/// PTMEAS.
pub(crate) fn point<'a>(
    said: Said<'_, 'a>,
    here: &Here<'a>,
    facts: &Facts<'a>,
    rounding: &mut Rounding,
) -> Result<Ruling, NoMemory> {
    if let Measuring::Untried(reason) = here.measuring {
        return Ok(Ruling::NotTried(reason));
    }
    if let Some(reason) = untried_value(facts, said.parts.rest, said.ground.options.is_exact) {
        return Ok(Ruling::NotTried(reason));
    }
    let name = point_name(said.ground, said.row);
    match here.measuring {
        Measuring::Point => with_lengths(said, Lengths::From(1, 4), rounding),
        Measuring::Approached if !name.is_empty() && !said.ground.traits.is_inch => {
            touched_point(said, name, rounding)
        }
        Measuring::Approached => approached_point(said, here, rounding),
        _ => Ok(Ruling::NotTried(Reason::NoDirection)),
    }
}

// The feature of a field, where its coordinates or the measured ones are there.
fn given_feature<'a>(
    here: &Here<'a>,
    features: &Features<'a>,
    field: &'a [u8],
) -> Option<&'a [u8]> {
    let (label, is_actual) = feature_in(field)?;
    let is_there = !is_actual || features.is_measured(here.body, label);
    if features.is_along(here.body, label) && is_there {
        Some(label)
    } else {
        None
    }
}

// What stands in front of a label in an OUTPUT.
fn output_front(field: &[u8]) -> &'static [u8] {
    if field.starts_with(b"FA") {
        b"OUTPUT/FA("
    } else {
        b"OUTPUT/F("
    }
}

// Appends the output of a feature of this name.
fn put_output(field: &[u8], name: &[u8], out: &mut Vec<u8>) -> Result<(), NoMemory> {
    out.extend_from_slice(output_front(field))?;
    out.extend_from_slice(name)?;
    out.push(b')')?;
    Ok(())
}

// Appends the output of the point of a row, in a line of its own.
fn put_output_line(
    ground: &Ground<'_>,
    field: &[u8],
    row: usize,
    out: &mut Vec<u8>,
) -> Result<(), NoMemory> {
    put_output(field, point_name(ground, row), out)?;
    out.push(b'\n')?;
    Ok(())
}

// The output of the points between two rows that are touched.
fn touched_output(
    said: Said<'_, '_>,
    field: &[u8],
    rows: (usize, usize),
    page: &Page,
) -> Result<Ruling, NoMemory> {
    let mut statements = Vec::new(said.ground.alloc);
    for row in rows.0..rows.1 {
        if page.rows.get(row).is_some_and(is_touched) {
            put_output_line(said.ground, field, row, &mut statements)?;
        }
    }
    Ok(Ruling::Several(Reason::Touched, statements))
}

// The output of a feature without what stands behind it.
fn plain_output(said: Said<'_, '_>, field: &[u8], label: &[u8]) -> Result<Ruling, NoMemory> {
    let name = said.ground.naming.label(Named::Feature, label);
    let mut new = Vec::new(said.ground.alloc);
    put_output(field, name, &mut new)?;
    Ok(Ruling::Put(Reason::OutputTolerances, new))
}

// Whether features stand among fields.
fn has_feature(fields: &[&[u8]]) -> bool {
    fields.iter().any(|field| feature_in(field).is_some())
}

// The rows of the feature of a field, where its points are touched.
fn touched_rows<'a>(features: &Features<'a>, field: &'a [u8]) -> Option<(usize, usize)> {
    let (label, _) = feature_in(field)?;
    features.touched.get(label)
}

// The output of one feature, with other fields behind it or alone.
fn output_of<'a>(
    said: Said<'_, 'a>,
    here: &Here<'a>,
    features: &Features<'a>,
    page: &mut Page,
    field: &'a [u8],
    is_alone: bool,
) -> Result<Ruling, NoMemory> {
    if let Some(rows) = touched_rows(features, field) {
        return touched_output(said, field, rows, page);
    }
    match given_feature(here, features, field) {
        None => Ok(Ruling::LeftOut(Reason::OtherOutput)),
        Some(_) if is_alone => standing(said, &mut page.rounding),
        Some(label) => plain_output(said, field, label),
    }
}

/// OUTPUT.
pub(crate) fn output<'a>(
    said: Said<'_, 'a>,
    here: &Here<'a>,
    features: &Features<'a>,
    page: &mut Page,
) -> Result<Ruling, NoMemory> {
    match said.fields {
        [first, others @ ..] if !has_feature(others) => {
            output_of(said, here, features, page, first, others.is_empty())
        }
        _ => Ok(Ruling::LeftOut(Reason::OtherOutput)),
    }
}

// Whether a field spells a word of a point that can be asked for.
fn is_word(field: &[u8]) -> bool {
    match read_decimal(field) {
        Some(number) => 30_000_000 <= number.value && number.value <= 80_000_000,
        None => false,
    }
}

/// OBTAIN: whether the value is there.
pub(crate) fn is_obtained<'a>(
    said: Said<'_, 'a>,
    here: &Here<'a>,
    features: &Features<'a>,
) -> bool {
    match said.fields {
        [feature, word] => {
            is_word(word)
                && given_feature(here, features, feature).is_some()
                && !said.ground.traits.is_inch
        }
        _ => false,
    }
}
