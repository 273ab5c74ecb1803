//! Frames by datums.

use crate::frames::{Datum, Frames, machine_frame, machine_recall, origin_axis};
use crate::measuring::feature_in;
use crate::pages::Page;
use crate::view::{Features, Ground, Here, Said};
use std::alloc::Global;
use vcm_classes::{Frame, MACHINE, Position, Ruling, Stand, Turn};
use vcm_num::{NoMemory, is, write_int, write_thousandths};
use vcm_sentences::enclosed;
use vcm_spelling::{Named, joined};
use vcm_standard::Reason;

// The label of `DAT(..)`.
fn datum_in<'a>(bytes: &'a [u8]) -> Option<&'a [u8]> {
    enclosed(bytes, b"DAT(")
}

// The letter of an axis.
fn letter(axis: usize) -> u8 {
    match axis {
        0 => b'X',
        1 => b'Y',
        _ => b'Z',
    }
}

// Appends the fields of a TRANS to an origin.
fn put_origins(origin: Position, out: &mut Vec<u8>) -> Result<(), NoMemory> {
    out.extend_from_slice(b"XORIG,")?;
    write_thousandths(origin.x, out)?;
    out.extend_from_slice(b",YORIG,")?;
    write_thousandths(origin.y, out)?;
    out.extend_from_slice(b",ZORIG,")?;
    write_thousandths(origin.z, out)
}

// The statement that moves the machine's frame to an origin, under a name.
fn moved_frame(said: Said<'_, '_>, origin: Position) -> Result<Vec<u8>, NoMemory> {
    let name = said.ground.naming.label(Named::Frame, said.parts.title);
    let mut new = joined(said.ground.alloc, &[b"D(", name, b")=TRANS/"])?;
    put_origins(origin, &mut new)?;
    Ok(new)
}

// Appends the fields of a ROTATE.
fn put_turn(turn: Turn, out: &mut Vec<u8>) -> Result<(), NoMemory> {
    out.push(letter(turn.axis))?;
    out.extend_from_slice(b"AXIS,")?;
    write_int(turn.degrees, out)
}

// The statement that turns a frame, under its name.
fn turned_frame(said: Said<'_, '_>, turn: Turn) -> Result<Vec<u8>, NoMemory> {
    let name = said.ground.naming.label(Named::Frame, said.parts.title);
    let mut new = joined(said.ground.alloc, &[b"D(", name, b")=ROTATE/"])?;
    put_turn(turn, &mut new)?;
    Ok(new)
}

// Puts a statement in the nearest line to spare above a row, and gives that line's row.
fn put_above(
    ground: &Ground<'_>,
    page: &mut Page,
    row: usize,
    bytes: &[u8],
) -> Result<Option<usize>, NoMemory> {
    let Some(spare) = page.spare_above(row) else {
        return Ok(None);
    };
    let is_put = page.put_in(ground, spare, Reason::GivenFrame, bytes)?;
    Ok(if is_put { Some(spare) } else { None })
}

// Puts a statement in the nearest line to spare above a row, and says whether it could be.
fn is_put_above(
    ground: &Ground<'_>,
    page: &mut Page,
    row: usize,
    bytes: &[u8],
) -> Result<bool, NoMemory> {
    Ok(put_above(ground, page, row, bytes)?.is_some())
}

// The recall of the machine's frame above a row, where another frame is current; whether the machine's is current then.
fn begin_machine<'a>(
    said: Said<'_, 'a>,
    here: &Here<'a>,
    frames: &Frames<'a>,
    page: &mut Page,
    row: usize,
) -> Result<bool, NoMemory> {
    if here.flow.is_in(MACHINE) {
        return Ok(true);
    }
    match machine_recall(said, frames)? {
        None => Ok(false),
        Some(recall) => is_put_above(said.ground, page, row, recall.as_slice()),
    }
}

// Whether there are lines to spare above a row, this many.
fn has_lines_above(page: &Page, row: usize, count: u32) -> bool {
    let mut above = Some(row);
    for _ in 0..count {
        above = match above {
            Some(row) => page.spare_above(row),
            None => None,
        };
    }
    above.is_some()
}

// How many lines of its own a given frame needs.
fn lines_wanted(stand: Stand, here: &Here<'_>) -> u32 {
    let for_turn = if stand.turn.is_some() { 1u32 } else { 0u32 };
    let for_recall = if here.flow.is_in(MACHINE) { 0u32 } else { 1u32 };
    for_turn.saturating_add(for_recall)
}

// The statement of a frame that isn't turned, or of its turn; then the frame at its origin stands in a line above.
fn last_statement(
    said: Said<'_, '_>,
    page: &mut Page,
    stand: Stand,
) -> Result<Option<(Vec<u8>, usize)>, NoMemory> {
    let moved = moved_frame(said, stand.origin)?;
    let Some(turn) = stand.turn else {
        return Ok(Some((moved, said.row)));
    };
    match put_above(said.ground, page, said.row, moved.as_slice())? {
        Some(row) => Ok(Some((turned_frame(said, turn)?, row))),
        None => Ok(None),
    }
}

// A frame whose place the user says, which begins at the machine's.
fn given_frame<'a>(
    said: Said<'_, 'a>,
    here: &mut Here<'a>,
    frames: &mut Frames<'a>,
    page: &mut Page,
    stand: Stand,
) -> Result<Ruling, NoMemory> {
    let label = said.parts.title;
    let has_recall = here.flow.is_in(MACHINE) || frames.machine.is_some();
    if !has_recall || !has_lines_above(page, said.row, lines_wanted(stand, here)) {
        return frames.untried(here, label, Reason::DatumFrames);
    }
    let Some((new, row)) = last_statement(said, page, stand)? else {
        return frames.untried(here, label, Reason::DatumFrames);
    };
    if !begin_machine(said, here, frames, page, row)? {
        return frames.untried(here, label, Reason::DatumFrames);
    }
    here.enter_new(if stand.turn.is_some() {
        None
    } else {
        Some(stand.origin)
    });
    frames.save(here, label, false)?;
    Ok(Ruling::Put(Reason::GivenFrame, new))
}

// A frame by datums: for each origin its axis, the feature and the row of its DATDEF.
#[derive(Clone, Copy)]
struct Origin<'a> {
    axis: usize,
    datum: Datum<'a>,
}

// Whether the frame at a datum is the one with this number.
fn is_frame(frame: Frame, number: u32) -> bool {
    match frame {
        Frame::Known(own) => own == number,
        Frame::Unknown => false,
    }
}

// The datum of a point that was measured in this frame, above its DATDEF.
fn point_datum<'a>(
    here: &Here<'a>,
    frames: &Frames<'a>,
    features: &Features<'a>,
    page: &Page,
    label: &'a [u8],
) -> Option<Datum<'a>> {
    let datum = frames.datums.get(label)?;
    let measured = features.measured.get(datum.feature)?;
    let is_usable = here.flow.is_in(measured.frame)
        && is_frame(datum.frame, measured.frame)
        && measured.row < datum.row
        && page.is_left_out(datum.row)
        && features.along.get(datum.feature).unwrap_or(false);
    if is_usable { Some(datum) } else { None }
}

// Whether an origin has the axis or the datum of one of these.
fn is_taken(origins: &[Origin<'_>], axis: usize, row: usize) -> bool {
    origins
        .iter()
        .any(|other| other.axis == axis || other.datum.row == row)
}

// The origin of a datum and the axis behind it, where the datum is a point measured in this frame.
fn point_origin<'a>(
    here: &Here<'a>,
    frames: &Frames<'a>,
    features: &Features<'a>,
    page: &Page,
    fields: &[&'a [u8]],
) -> Option<Origin<'a>> {
    match fields {
        [datum, axis] => Some(Origin {
            axis: origin_axis(axis)?,
            datum: point_datum(here, frames, features, page, datum_in(datum)?)?,
        }),
        _ => None,
    }
}

// Adds the origins of a DATSET, and says whether each is that of a point measured in this frame, and there is one.
fn take_origins<'a>(
    said: Said<'_, 'a>,
    here: &Here<'a>,
    frames: &Frames<'a>,
    features: &Features<'a>,
    page: &Page,
    origins: &mut Vec<Origin<'a>>,
) -> Result<bool, NoMemory> {
    for pair in said.fields.chunks(2) {
        match point_origin(here, frames, features, page, pair) {
            Some(origin) if !is_taken(origins.as_slice(), origin.axis, origin.datum.row) => {
                origins.push(origin)?;
            }
            _ => return Ok(false),
        }
    }
    Ok(!origins.is_empty())
}

// Appends what stands behind the front of the variable of an origin.
fn put_origin_name(line: u32, axis: usize, out: &mut Vec<u8>) -> Result<(), NoMemory> {
    out.push(letter(axis))?;
    out.push(b'_')?;
    write_int(i64::from(line), out)
}

// The variable of an origin.
fn origin_name(said: Said<'_, '_>, axis: usize) -> Result<Vec<u8>, NoMemory> {
    let mut name = joined(said.ground.alloc, &[said.ground.front, b"_"])?;
    put_origin_name(said.line, axis, &mut name)?;
    Ok(name)
}

// Reads the coordinate of a point in the place of its DATDEF.
fn obtain_origin(
    said: Said<'_, '_>,
    page: &mut Page,
    origin: Origin<'_>,
    variable: &[u8],
) -> Result<bool, NoMemory> {
    let name = said
        .ground
        .naming
        .label(Named::Feature, origin.datum.feature);
    let word: &[u8] = match origin.axis {
        0 => b"),3",
        1 => b"),4",
        _ => b"),5",
    };
    let new = joined(said.ground.alloc, &[variable, b"=OBTAIN/FA(", name, word])?;
    page.put_in(
        said.ground,
        origin.datum.row,
        Reason::PointFrames,
        new.as_slice(),
    )
}

// Appends a comma and a name.
fn put_behind_comma(name: &[u8], out: &mut Vec<u8>) -> Result<(), NoMemory> {
    out.push(b',')?;
    out.extend_from_slice(name)?;
    Ok(())
}

// Adds an origin to the frame's statement, and its variable to those that are declared.
fn put_origin(
    axis: usize,
    variable: &[u8],
    page: &mut Page,
    out: &mut Vec<u8>,
) -> Result<(), NoMemory> {
    if out.last().is_some_and(|byte| *byte != b'/') {
        out.push(b',')?;
    }
    out.push(letter(axis))?;
    out.extend_from_slice(b"ORIG")?;
    put_behind_comma(variable, out)?;
    put_behind_comma(variable, &mut page.declared)
}

// The origin of an axis.
fn origin_along<'a>(origins: &[Origin<'a>], axis: usize) -> Option<Origin<'a>> {
    origins.iter().find(|origin| origin.axis == axis).copied()
}

// Adds an origin by its variable, and says whether it could be.
fn put_origin_by(
    said: Said<'_, '_>,
    page: &mut Page,
    origin: Origin<'_>,
    variable: &[u8],
    out: &mut Vec<u8>,
) -> Result<bool, NoMemory> {
    if !obtain_origin(said, page, origin, variable)? {
        return Ok(false);
    }
    put_origin(origin.axis, variable, page, out)?;
    Ok(true)
}

// Adds the origin of an axis, if there is one, and says whether it could be.
fn put_axis(
    said: Said<'_, '_>,
    page: &mut Page,
    origins: &[Origin<'_>],
    axis: usize,
    out: &mut Vec<u8>,
) -> Result<bool, NoMemory> {
    match origin_along(origins, axis) {
        None => Ok(true),
        Some(origin) => {
            let variable = origin_name(said, axis)?;
            put_origin_by(said, page, origin, variable.as_slice(), out)
        }
    }
}

// The statement of a frame by points, where each of its lines could be put.
fn point_statement(
    said: Said<'_, '_>,
    page: &mut Page,
    origins: &[Origin<'_>],
) -> Result<Option<Vec<u8>>, NoMemory> {
    let name = said.ground.naming.label(Named::Frame, said.parts.title);
    let mut new = joined(said.ground.alloc, &[b"D(", name, b")=TRANS/"])?;
    let mut are_put = true;
    for axis in 0..3 {
        are_put = put_axis(said, page, origins, axis, &mut new)? && are_put;
    }
    Ok(if are_put { Some(new) } else { None })
}

// A frame by points.
fn point_frame<'a>(
    said: Said<'_, 'a>,
    here: &mut Here<'a>,
    frames: &mut Frames<'a>,
    page: &mut Page,
    origins: &[Origin<'a>],
) -> Result<Ruling, NoMemory> {
    let Some(new) = point_statement(said, page, origins)? else {
        return frames.untried(here, said.parts.title, Reason::DatumFrames);
    };
    here.enter_new(None);
    frames.save(here, said.parts.title, false)?;
    Ok(Ruling::Put(Reason::PointFrames, new))
}

// Whether the variables of these origins can be declared above them.
fn has_room_above(said: Said<'_, '_>, page: &Page, origins: &[Origin<'_>]) -> bool {
    let Some(spare) = page.spare else {
        return false;
    };
    page.is_left_out(spare)
        && page.declared.len() < 900
        && !said.ground.traits.is_inch
        && origins.iter().all(|origin| spare < origin.datum.row)
}

// A frame by datums that nothing is said of.
fn datum_frame<'a>(
    said: Said<'_, 'a>,
    here: &mut Here<'a>,
    frames: &mut Frames<'a>,
    features: &Features<'a>,
    page: &mut Page,
) -> Result<Ruling, NoMemory> {
    let mut origins = Vec::new(said.ground.alloc);
    let are_points = take_origins(said, here, frames, features, page, &mut origins)?;
    if are_points && has_room_above(said, page, origins.as_slice()) {
        point_frame(said, here, frames, page, origins.as_slice())
    } else {
        frames.untried(here, said.parts.title, Reason::DatumFrames)
    }
}

/// DATSET.
pub(crate) fn set_frame<'a>(
    said: Said<'_, 'a>,
    here: &mut Here<'a>,
    frames: &mut Frames<'a>,
    features: &Features<'a>,
    page: &mut Page,
) -> Result<Ruling, NoMemory> {
    if is(said.parts.rest, b"MCS") {
        return machine_frame(said, here, frames);
    }
    if !here.is_outside {
        return frames.untried(here, said.parts.title, Reason::DatumFrames);
    }
    match said.ground.options.stand_of(said.parts.title) {
        Some(stand) => given_frame(said, here, frames, page, stand),
        None => datum_frame(said, here, frames, features, page),
    }
}

/// DATDEF.
pub(crate) fn datum<'a>(
    said: Said<'_, 'a>,
    here: &Here<'a>,
    frames: &mut Frames<'a>,
) -> Result<Ruling, NoMemory> {
    if let [feature, datum] = said.fields {
        if let (Some((feature, true)), Some(label)) = (feature_in(feature), datum_in(datum)) {
            let row = if here.is_outside {
                said.row
            } else {
                usize::MAX
            };
            let frame = here.flow.frame;
            frames.datums.set(
                label,
                Datum {
                    feature,
                    row,
                    frame,
                },
            )?;
        }
    }
    Ok(Ruling::LeftOut(Reason::Datums))
}

// The declaration of variables, each behind a comma.
fn declaration_of(alloc: Global, variables: &[u8]) -> Result<Vec<u8>, NoMemory> {
    joined(alloc, &[b"DECL/REAL", variables])
}

/// Declares the variables of frames in a line to spare.
pub(crate) fn declare(ground: &Ground<'_>, page: &mut Page) -> Result<(), NoMemory> {
    let Some(index) = page.spare else {
        return Ok(());
    };
    if page.declared.is_empty() {
        return Ok(());
    }
    let new = declaration_of(ground.alloc, page.declared.as_slice())?;
    page.put_in(ground, index, Reason::PointFrames, new.as_slice())?;
    Ok(())
}

/// What new names begin with: letters that stand nowhere in the text.
pub(crate) fn front_of(alloc: Global, text: &[u8]) -> Result<Vec<u8>, NoMemory> {
    let mut front = joined(alloc, &[b"VCM"])?;
    for _ in 0..8 {
        if !contains(text, front.as_slice()) {
            break;
        }
        front.push(b'X')?;
    }
    Ok(front)
}

// Whether bytes stand somewhere in a text, whatever their case.
fn contains(text: &[u8], bytes: &[u8]) -> bool {
    text.windows(bytes.len().max(1))
        .any(|window| window.eq_ignore_ascii_case(bytes))
}
