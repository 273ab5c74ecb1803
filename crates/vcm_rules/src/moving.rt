//! Statements that move the probe.

use crate::expressions::untried_value;
use crate::spelled::{Lengths, standing, with_lengths};
use crate::view::{Ground, Here, Measuring, Said};
use vcm_classes::{Facts, Position, Ruling};
use vcm_num::{NoMemory, is};
use vcm_sentences::{fields_of, has_fine_digits, micrometres, read_decimal};
use vcm_spelling::{Rounding, approach, in_millimetres, joined};
use vcm_standard::Reason;

// The fields of a place, without CART in front of them.
fn place_fields<'a, 'b>(fields: &'b [&'a [u8]]) -> &'b [&'a [u8]] {
    match fields {
        [first, rest @ ..] if is(first, b"CART") => rest,
        _ => fields,
    }
}

// The words of GOTO in front of what is no place along the axes.
const OTHER_FORMS: &[&[u8]] = &[b"POL", b"INCR", b"ANGLES", b"HEADTOUCH", b"PCS"];

// Whether the fields of a GOTO are a place along the axes, and not one by angles, steps or the like.
fn is_place(fields: &[&[u8]]) -> bool {
    let is_other = match fields {
        [first, ..] => OTHER_FORMS.contains(first),
        [] => false,
    };
    let is_lettered = match fields {
        [[first, ..], ..] => first.is_ascii_alphabetic(),
        _ => false,
    };
    !is_other && (place_fields(fields).len() == 3 || !is_lettered)
}

/// Why nothing that moves is tried here, if it isn't.
pub(crate) fn untried_move(is_followed: bool, here: &Here<'_>) -> Option<Reason> {
    if let Measuring::Untried(reason) = here.measuring {
        // Between scanned lines the moves are tried.
        if !reason.is(Reason::Scans) {
            return Some(reason);
        }
    }
    if here.is_turned {
        Some(Reason::RotaryTable)
    } else if here.flow.is_manual {
        Some(Reason::MovedByHand)
    } else if !is_followed {
        Some(Reason::LengthExpressions)
    } else if !here.flow.is_known() {
        Some(Reason::UnknownFrame)
    } else {
        None
    }
}

/// Why a move by these values isn't tried here, if it isn't.
pub(crate) fn untried_way<'a>(
    ground: &Ground<'a>,
    here: &Here<'a>,
    facts: &Facts<'a>,
    bytes: &'a [u8],
) -> Option<Reason> {
    match untried_move(ground.traits.is_followed, here) {
        Some(reason) => Some(reason),
        None => untried_value(facts, bytes, ground.options.is_exact),
    }
}

/// GOTO.
pub(crate) fn go_to<'a>(
    said: Said<'_, 'a>,
    here: &Here<'a>,
    facts: &Facts<'a>,
    rounding: &mut Rounding,
) -> Result<Ruling, NoMemory> {
    if let Some(reason) = untried_move(said.ground.traits.is_followed, here) {
        return Ok(Ruling::NotTried(reason));
    }
    if !is_place(said.fields) {
        return Ok(Ruling::NotTried(Reason::OtherGoto));
    }
    match untried_value(facts, said.parts.rest, said.ground.options.is_exact) {
        Some(reason) => Ok(Ruling::NotTried(reason)),
        None => with_lengths(said, Lengths::All, rounding),
    }
}

/// GOHOME, which needs no frame.
pub(crate) fn go_home(
    said: Said<'_, '_>,
    here: &Here<'_>,
    rounding: &mut Rounding,
) -> Result<Ruling, NoMemory> {
    match untried_move(said.ground.traits.is_followed, here) {
        None | Some(Reason::UnknownFrame | Reason::LengthExpressions) => standing(said, rounding),
        Some(reason) => Ok(Ruling::NotTried(reason)),
    }
}

/// GOTARG: the moves behind it stay, and ENDGO becomes the move to its place.
pub(crate) fn go_target<'a>(said: Said<'_, 'a>, here: &mut Here<'a>) -> Ruling {
    let is_paired = said.outlook().is_some_and(|outlook| outlook.is_paired);
    if !is_paired {
        return Ruling::NotTried(Reason::Unpaired);
    }
    here.target = Some(said.parts.rest);
    match untried_move(said.ground.traits.is_followed, here) {
        Some(reason) => Ruling::NotTried(reason),
        None => Ruling::Replaced(Reason::Targets),
    }
}

/// ENDGO.
pub(crate) fn end_target<'a>(
    said: Said<'_, 'a>,
    here: &mut Here<'a>,
    facts: &Facts<'a>,
    rounding: &mut Rounding,
) -> Result<Ruling, NoMemory> {
    let Some(target) = here.target else {
        return Ok(Ruling::NotTried(Reason::Unpaired));
    };
    here.target = None;
    if let Some(reason) = untried_way(said.ground, here, facts, target) {
        return Ok(Ruling::NotTried(reason));
    }
    let fields = fields_of(said.ground.alloc, target)?;
    match place_fields(fields.as_slice()) {
        [x, y, z] => target_move(said, [x, y, z], rounding),
        _ => Ok(Ruling::NotTried(Reason::OtherGoto)),
    }
}

// The move to the place of a GOTARG: its literals stand as they are where they need no rounding.
fn target_move(
    said: Said<'_, '_>,
    place: [&[u8]; 3],
    rounding: &mut Rounding,
) -> Result<Ruling, NoMemory> {
    let [x, y, z] = place;
    let alloc = said.ground.alloc;
    let is_inch = said.ground.traits.is_inch;
    if !is_inch && !has_fine_digits(x) && !has_fine_digits(y) && !has_fine_digits(z) {
        let new = joined(alloc, &[b"GOTO/", x, b",", y, b",", z])?;
        return Ok(Ruling::Put(Reason::Targets, new));
    }
    match approach(alloc, place, [0, 0, 0], is_inch, rounding)? {
        Some(new) => Ok(Ruling::Put(Reason::Targets, new)),
        None => Ok(Ruling::NotTried(Reason::LengthExpressions)),
    }
}

// A literal as micrometres.
fn length(field: &[u8], is_inch: bool) -> Option<i64> {
    let number = read_decimal(field)?;
    Some(micrometres(in_millimetres(number.value, is_inch)))
}

// The position of these fields behind an origin, where they are literals.
fn position_behind(origin: Position, fields: &[&[u8]], is_inch: bool) -> Option<Position> {
    match fields {
        [x, y, z] => Some(Position {
            x: origin.x.saturating_add(length(x, is_inch)?),
            y: origin.y.saturating_add(length(y, is_inch)?),
            z: origin.z.saturating_add(length(z, is_inch)?),
        }),
        _ => None,
    }
}

/// The position of a FROM in machine coordinates, where it stands in the text.
pub(crate) fn home_at(said: Said<'_, '_>, here: &Here<'_>) -> Option<Position> {
    if !here.flow.is_known() || !said.ground.traits.is_followed {
        return None;
    }
    let origin = here.flow.origin?;
    position_behind(
        origin,
        place_fields(said.fields),
        said.ground.traits.is_inch,
    )
}
