//! Contacts and rooms as text. Nothing here takes memory.

ghost use Rattle.std.specs.Prelude.{◌≡◌, [], ◌∷◌};
ghost use Rattle.vcm_num.specs.Written.{Wrote};
ghost use Rattle.vcm_naming.specs.Naming.{plain, about};
ghost use Rattle.vcm_naming.specs.Pages.{page, Added};
ghost use Rattle.vcm_clearance.specs.Printed.{going_text, position_text, place_text, hit_text, met_text, where_text, told_text, contact_text, contact_line, ways_text, met_line, clear_line, more_text, narrow_text, narrow_line, box_lines};
ghost use Rattle.vcm_clearance.specs.inner.Here.{here_text, past_text, kept_lines};

use crate::here::{Behind, Here, write_behind, write_here};
use crate::room::Room;
use crate::told::Told;
use itoa::Buffer;
use std::io::Write;
use vcm_backtrace::Kept;
use vcm_boxes::ProbeBox;
use vcm_marks::Going;
use vcm_naming::BlockNames;
use vcm_num::{Point, WriteFault, write_all, write_pieces};
use vcm_report::write_point;
use vcm_spec::Hit;

// The word of a way.
fn going_text(going: Going) -> &'static [u8]
    ensures { result.now ≡ going_text going }
{
    match going {
        Going::Move => b"MOVE",
        Going::Approach => b"APPROACH",
        Going::Search => b"SEARCH",
        Going::Retract => b"RETRACT",
        Going::Rest => b"REST",
    }
}

// Writes how a way is gone, and what is met on it.
fn write_hit<W: Write>(word: &[u8], hit: Hit, writer: &mut W) -> Result<(), WriteFault>
    ensures { Wrote (W.contents writer.old) (W.contents writer.new) (hit_text word.now hit) result }
{
    let mut block = Buffer::new();
    let mut permille = Buffer::new();
    let block = block.format(hit.block).as_bytes();
    let permille = permille.format(hit.permille).as_bytes();
    write_pieces(
        writer,
        &[b" ", word, b" block ", block, b" permille ", permille],
    )
}

// Writes what a box of this name meets.
fn write_met<W: Write>(name: &[u8], told: &Told, writer: &mut W) -> Result<(), WriteFault>
    ensures { Wrote (W.contents writer.old) (W.contents writer.new) (met_text name.now told.now) result }
{
    write_all(writer, name)?;
    write_hit(going_text(told.going), told.contact.hit, writer)
}

// Writes where in the run that is.
fn write_place<W: Write>(told: &Told, writer: &mut W) -> Result<(), WriteFault>
    ensures { Wrote (W.contents writer.old) (W.contents writer.new) (place_text told.now) result }
{
    let mut number = Buffer::new();
    let mut line = Buffer::new();
    let mut step = Buffer::new();
    let number = number.format(told.number).as_bytes();
    let line = line.format(told.line).as_bytes();
    let step = step.format(told.step).as_bytes();
    write_pieces(writer, &[b" at ", number, b" line ", line, b" step ", step])
}

// Writes where the tip then stands, and ends the line.
fn write_position<W: Write>(at: Point, writer: &mut W) -> Result<(), WriteFault>
    ensures { Wrote (W.contents writer.old) (W.contents writer.new) (position_text at) result }
{
    write_all(writer, b" position ")?;
    write_point(at, b" ", writer)?;
    write_all(writer, b"\n")
}

// Writes where a contact is, and ends the line.
fn write_where<W: Write>(told: &Told, writer: &mut W) -> Result<(), WriteFault>
    ensures { Wrote (W.contents writer.old) (W.contents writer.new) (where_text told.now) result }
{
    write_place(told, writer)?;
    write_position(told.contact.at, writer)
}

// Writes a contact, and ends the line.
fn write_told<W: Write>(name: &[u8], told: &Told, writer: &mut W) -> Result<(), WriteFault>
    ensures { Wrote (W.contents writer.old) (W.contents writer.new) (told_text name.now told.now) result }
{
    write_met(name, told, writer)?;
    write_where(told, writer)
}

/// Writes the text of the line of a contact of a box with this name.
///
/// Errors: the writer failed, or took no byte; then it has taken a front of the line, and not all of it.
pub fn write_contact_line<W: Write>(
    name: &[u8],
    told: &Told,
    writer: &mut W,
) -> Result<(), WriteFault>
    ensures { Wrote (W.contents writer.old) (W.contents writer.new) (contact_text name.now told.now) result }
{
    write_all(writer, b"contact ")?;
    write_told(name, told, writer)
}

// Writes the line of a contact, and the name of its block, if it is left.
fn write_named_contact<W: Write>(
    name: &[u8],
    told: &Told,
    names: &mut BlockNames,
    writer: &mut W,
) -> Result<(), WriteFault>
    ensures { Added (page (W.contents writer.old) names.old) (page (W.contents writer.new) names.new) (about told.now.contact.hit.block (contact_text name.now told.now) ∷ []) result }
{
    write_contact_line(name, told, writer)?;
    names.write_once(Some(told.contact.hit.block), writer)
}

// The same, and below it the backtrace of its statement.
fn write_whole_contact<W: Write>(
    name: &[u8],
    told: &Told,
    here: &Here<'_>,
    names: &mut BlockNames,
    writer: &mut W,
) -> Result<(), WriteFault>
    ensures { Added (page (W.contents writer.old) names.old) (page (W.contents writer.new) names.new)
        (about told.now.contact.hit.block (contact_text name.now told.now) ∷ plain (here_text here.now) ∷ []) result }
{
    write_named_contact(name, told, names, writer)?;
    write_here(here, writer)
}

/// Writes the line of a contact of a box with this name, if there is one, the name of its block, if it is left, and the backtrace of its statement.
///
/// Errors: the writer failed, or took no byte; then it has taken a front of that, and not all of it.
pub(crate) fn write_contact<W: Write>(
    name: &[u8],
    told: Option<Told>,
    here: &Here<'_>,
    names: &mut BlockNames,
    writer: &mut W,
) -> Result<(), WriteFault>
    ensures { Added (page (W.contents writer.old) names.old) (page (W.contents writer.new) names.new) (contact_line name.now told (here_text here.now)) result }
{
    match told {
        None => Ok(()),
        Some(told) => write_whole_contact(name, &told, here, names, writer),
    }
}

/// Writes how many ways there are, and behind that what is told of ways that weren't tried.
///
/// Errors: the writer failed, or took no byte; then it has taken a front of the line, and not all of it.
pub(crate) fn write_ways<W: Write>(
    untried: &[u8],
    count: u64,
    writer: &mut W,
) -> Result<(), WriteFault>
    ensures { Wrote (W.contents writer.old) (W.contents writer.new) (ways_text untried.now count) result }
{
    let mut digits = Buffer::new();
    let count = digits.format(count).as_bytes();
    write_pieces(writer, &[b"ways ", count, untried, b"\n"])
}

// Writes that a box is met.
fn write_met_line<W: Write>(name: &[u8], count: u64, writer: &mut W) -> Result<(), WriteFault>
    ensures { Wrote (W.contents writer.old) (W.contents writer.new) (met_line name.now count) result }
{
    let mut digits = Buffer::new();
    let count = digits.format(count).as_bytes();
    write_pieces(writer, &[b"box ", name, b" met ", count, b"\n"])
}

// Writes how much room is left.
fn write_clear_line<W: Write>(name: &[u8], by: u32, writer: &mut W) -> Result<(), WriteFault>
    ensures { Wrote (W.contents writer.old) (W.contents writer.new) (clear_line name.now by) result }
{
    let mut digits = Buffer::new();
    let by = digits.format(by).as_bytes();
    write_pieces(writer, &[b"box ", name, b" clear ", by, b"\n"])
}

// Writes with how much more a box meets a block.
fn write_more<W: Write>(by: u32, writer: &mut W) -> Result<(), WriteFault>
    ensures { Wrote (W.contents writer.old) (W.contents writer.new) (more_text by) result }
{
    let more = u64::from(by) + 1;
    let mut digits = Buffer::new();
    write_pieces(writer, &[b"at ", digits.format(more).as_bytes(), b" "])
}

// Writes what it then meets.
fn write_narrow_line<W: Write>(
    name: &[u8],
    by: u32,
    told: &Told,
    writer: &mut W,
) -> Result<(), WriteFault>
    ensures { Wrote (W.contents writer.old) (W.contents writer.new) (narrow_text name.now by told.now) result }
{
    write_more(by, writer)?;
    write_told(name, told, writer)
}

// The same, and the name of the block, if it is left.
fn write_named_narrow<W: Write>(
    name: &[u8],
    by: u32,
    told: &Told,
    names: &mut BlockNames,
    writer: &mut W,
) -> Result<(), WriteFault>
    ensures { Added (page (W.contents writer.old) names.old) (page (W.contents writer.new) names.new) (about told.now.contact.hit.block (narrow_text name.now by told.now) ∷ []) result }
{
    write_narrow_line(name, by, told, writer)?;
    names.write_once(Some(told.contact.hit.block), writer)
}

// The same, and below it the backtrace of its statement.
fn write_whole_narrow<W: Write>(
    name: &[u8],
    by: u32,
    told: &Told,
    kept: &Kept,
    behind: &Behind<'_>,
    names: &mut BlockNames,
    writer: &mut W,
) -> Result<(), WriteFault>
    ensures { Added (page (W.contents writer.old) names.old) (page (W.contents writer.new) names.new)
        (about told.now.contact.hit.block (narrow_text name.now by told.now)
        ∷ plain (past_text behind.now.source.now behind.now.loaded.now.statements behind.now.tables.now kept.now told.now.number) ∷ []) result }
{
    write_named_narrow(name, by, told, names, writer)?;
    write_behind(behind, kept, told.number, writer)
}

// The same, if it meets a block.
fn write_narrow<W: Write>(
    name: &[u8],
    by: u32,
    told: Option<Told>,
    kept: &Kept,
    behind: &Behind<'_>,
    names: &mut BlockNames,
    writer: &mut W,
) -> Result<(), WriteFault>
    ensures { Added (page (W.contents writer.old) names.old) (page (W.contents writer.new) names.new)
        (narrow_line (λ t. past_text behind.now.source.now behind.now.loaded.now.statements behind.now.tables.now kept.now t.number) name.now by told) result }
{
    match told {
        None => Ok(()),
        Some(told) => write_whole_narrow(name, by, &told, kept, behind, names, writer),
    }
}

// Writes the room round a box that meets no block.
fn write_clear<W: Write>(
    name: &[u8],
    by: u32,
    told: Option<Told>,
    kept: &Kept,
    behind: &Behind<'_>,
    names: &mut BlockNames,
    writer: &mut W,
) -> Result<(), WriteFault>
    ensures { Added (page (W.contents writer.old) names.old) (page (W.contents writer.new) names.new) (plain (clear_line name.now by)
        ∷ narrow_line (λ t. past_text behind.now.source.now behind.now.loaded.now.statements behind.now.tables.now kept.now t.number) name.now by told) result }
{
    write_clear_line(name, by, writer)?;
    write_narrow(name, by, told, kept, behind, names, writer)
}

// Writes the lines of a box.
fn write_box<W: Write>(
    name: &[u8],
    room: Room,
    kept: &Kept,
    behind: &Behind<'_>,
    names: &mut BlockNames,
    writer: &mut W,
) -> Result<(), WriteFault>
    ensures { Added (page (W.contents writer.old) names.old) (page (W.contents writer.new) names.new)
        (box_lines (λ t. past_text behind.now.source.now behind.now.loaded.now.statements behind.now.tables.now kept.now t.number) name.now room) result }
{
    match room {
        Room::Met(count) => write_met_line(name, count, writer),
        Room::Clear(by, told) => write_clear(name, by, told, kept, behind, names, writer),
    }
}

/// Writes the lines of boxes with their rooms, and the names of blocks that are left, by what is kept of the narrowest place round each.
///
/// Errors: the writer failed, or took no byte; then it has taken a front of the lines, and not all of them.
pub(crate) fn write_boxes<W: Write>(
    boxes: &[ProbeBox],
    rooms: &[Room],
    kept: &[Kept],
    behind: &Behind<'_>,
    names: &mut BlockNames,
    writer: &mut W,
) -> Result<(), WriteFault>
    ensures { Added (page (W.contents writer.old) names.old) (page (W.contents writer.new) names.new)
        (kept_lines (past_text behind.now.source.now behind.now.loaded.now.statements behind.now.tables.now) boxes.now rooms.now kept.now) result }
{
    let Some((first, boxes)) = boxes.split_first() else {
        return Ok(());
    };
    let Some((room, rooms)) = rooms.split_first() else {
        return Ok(());
    };
    let Some((past, kept)) = kept.split_first() else {
        return Ok(());
    };
    let name = first.name.as_bytes();
    match write_box(name, *room, past, behind, names, writer) {
        Ok(()) => write_boxes(boxes, rooms, kept, behind, names, writer),
        Err(fault) => Err(fault),
    }
}
