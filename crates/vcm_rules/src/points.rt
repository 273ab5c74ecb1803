//! Points that are approached, or touched one by one.

use crate::view::{Ground, Here, Said};
use vcm_classes::Ruling;
use vcm_num::{NoMemory, is};
use vcm_spelling::{
    Direction, Rounding, approach, direction_of, is_along, joined, offsets, rounded,
};
use vcm_standard::Reason;

// Why a point is approached.
fn reason_of(direction: Direction) -> Reason {
    if is_along(direction) {
        Reason::Approached
    } else {
        Reason::Slanted
    }
}

// The move to the place in front of a point with these coordinates.
fn move_to(
    said: Said<'_, '_>,
    place: [&[u8]; 3],
    offsets: [i64; 3],
    reason: Reason,
    rounding: &mut Rounding,
) -> Result<Ruling, NoMemory> {
    let is_inch = said.ground.traits.is_inch;
    match approach(said.ground.alloc, place, offsets, is_inch, rounding)? {
        Some(new) => Ok(Ruling::Put(reason, new)),
        None => Ok(Ruling::NotTried(Reason::NoDirection)),
    }
}

// The move to the place in front of a point.
fn approached(
    said: Said<'_, '_>,
    distance: i64,
    direction: Direction,
    rounding: &mut Rounding,
) -> Result<Ruling, NoMemory> {
    let Some(offsets) = offsets(direction, distance) else {
        return Ok(Ruling::NotTried(Reason::NoDirection));
    };
    match said.fields {
        [cart, x, y, z, ..] if is(cart, b"CART") => {
            move_to(said, [x, y, z], offsets, reason_of(direction), rounding)
        }
        _ => Ok(Ruling::NotTried(Reason::NoDirection)),
    }
}

/// The place in front of a point, or why there is none.
pub(crate) fn approached_point(
    said: Said<'_, '_>,
    here: &Here<'_>,
    rounding: &mut Rounding,
) -> Result<Ruling, NoMemory> {
    let Some(approach) = here.flow.approach else {
        return Ok(Ruling::NotTried(Reason::UnknownApproach));
    };
    let distance = approach.saturating_add(said.ground.options.tip);
    let mut counted = *rounding;
    let ruling = approached(said, distance, direction_of(said.fields), &mut counted)?;
    if said.ground.options.is_exact && counted.count != rounding.count {
        return Ok(Ruling::NotTried(Reason::FineDigits));
    }
    *rounding = counted;
    Ok(ruling)
}

/// The name of the point that this one is touched as, nothing where it is not.
pub(crate) fn point_name<'a>(ground: &Ground<'a>, row: usize) -> &'a [u8] {
    match ground.points.get(row) {
        Some(name) => name.as_slice(),
        None => &[],
    }
}

// A number or an expression as it is touched, where it isn't rounded.
fn statements(said: Said<'_, '_>, name: &[u8], rest: &[u8]) -> Result<Vec<u8>, NoMemory> {
    joined(
        said.ground.alloc,
        &[
            b"F(",
            name,
            b")=FEAT/POINT,",
            rest,
            b"\nMEAS/POINT,F(",
            name,
            b"),1\nPTMEAS/",
            rest,
            b"\nENDMES\n",
        ],
    )
}

// The statements that touch a point with these bytes.
fn touched(said: Said<'_, '_>, name: &[u8], whole: &[u8]) -> Result<Ruling, NoMemory> {
    let rest = whole.strip_prefix(b"PTMEAS/").unwrap_or(&[]);
    Ok(Ruling::Several(Reason::Touched, statements(said, name, rest)?))
}

// The statements that touch a point, its numbers rounded.
fn touched_roundly(
    said: Said<'_, '_>,
    name: &[u8],
    bytes: &[u8],
    rounding: &mut Rounding,
) -> Result<Ruling, NoMemory> {
    let mut counted = *rounding;
    let Some(whole) = rounded(said.ground.alloc, bytes, &mut counted)? else {
        return Ok(Ruling::NotTried(Reason::NoDirection));
    };
    if said.ground.options.is_exact && counted.count != rounding.count {
        return Ok(Ruling::NotTried(Reason::FineDigits));
    }
    *rounding = counted;
    touched(said, name, whole.as_slice())
}

/// The statements that touch a point, where it has no lengths in inches.
pub(crate) fn touched_point(
    said: Said<'_, '_>,
    name: &[u8],
    rounding: &mut Rounding,
) -> Result<Ruling, NoMemory> {
    match said.ground.naming.renamed(said.bytes)? {
        Some(named) => touched_roundly(said, name, named.as_slice(), rounding),
        None => touched_roundly(said, name, said.bytes, rounding),
    }
}
