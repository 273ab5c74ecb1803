//! The lines of the first contact of a box. Nothing here takes memory.

ghost use Rattle.std.specs.Prelude.{◌≡◌, IsTrue};
ghost use Rattle.vcm_spec.specs.Workpiece.{is_block};
ghost use Rattle.vcm_carried.specs.Carried.{IsBox};
ghost use Rattle.vcm_cause.specs.Watched.{seen};
ghost use Rattle.vcm_num.specs.Written.{Wrote};
ghost use Rattle.vcm_first_contact.specs.Lines.{as_point, obstacle_with, obstacle_of, meeting_line, obstacle_lines, obstacle_if, named_contact, first_lines};

use crate::first::FirstContact;
use crate::spread::spread;
use std::io::Write;
use vcm_backtrace::Source;
use vcm_cause::{Obstacle, Watched, beside, over};
use vcm_clearance::write_contact_line;
use vcm_loader::Loaded;
use vcm_marks::Contact;
use vcm_naming::BlockNames;
use vcm_num::{WriteFault, write_all};
use vcm_part::PartData;
use vcm_spec::{Block3, Bounds};
use vcm_why::{write_between, write_block_line, write_free, write_way, write_where};

// The limits, with a tip without extent.
fn as_point(bounds: Bounds) -> Bounds
    ensures { result ≡ as_point bounds }
{
    Bounds {
        low: bounds.low,
        high: bounds.high,
        home: bounds.home,
        tip: 0,
    }
}

// What a box of this extent meets in this block, and where the centre of the tip stands from which on that box is free of it.
fn obstacle_with(
    part: &PartData,
    carried: &Block3,
    first: &FirstContact,
    block: &Block3,
) -> Obstacle
    requires carried { IsBox 10000000 carried.now }
    requires block { IsTrue (is_block block.now) }
    ensures { result ≡ obstacle_with part.now carried.now first.now block.now }
{
    let bounds = as_point(part.bounds());
    let grown = spread(carried, block);
    Obstacle {
        contact: Contact {
            at: first.told.contact.at,
            block: first.told.contact.hit.block,
            from: first.from,
            aim: first.to,
        },
        block: *block,
        over: over(&bounds, &grown),
        beside: beside(&bounds, &grown, first.from, first.to),
    }
}

/// The same of the block that is told, if there is such a block.
pub(crate) fn obstacle_of(
    part: &PartData,
    carried: &Block3,
    first: &FirstContact,
) -> Option<Obstacle>
    requires { IsBox 10000000 carried.now }
    ensures { result ≡ obstacle_of part.now carried.now first.now }
{
    match part
        .blocks()
        .get(first.told.contact.hit.block.saturating_sub(1) as usize)
    {
        Some(block) => Some(obstacle_with(part, carried, first, block)),
        None => None,
    }
}

// Writes where the centre of the tip stands as the box of this name meets a block, and the block.
fn write_meeting<W: Write>(name: &[u8], met: &Obstacle, writer: &mut W) -> Result<(), WriteFault>
    ensures { Wrote (W.contents writer.old) (W.contents writer.new) (meeting_line name.now met.now) result }
{
    write_all(writer, b"contact of ")?;
    write_all(writer, name)?;
    write_between(
        b" where the tip's centre is at ",
        met.contact.at,
        b", with ",
        writer,
    )?;
    write_block_line(met, writer)
}

// Writes the way on which the box of this name meets a block, the contact, and where the box is free of it.
fn write_obstacle<W: Write>(name: &[u8], met: &Obstacle, writer: &mut W) -> Result<(), WriteFault>
    ensures { Wrote (W.contents writer.old) (W.contents writer.new) (obstacle_lines name.now met.now) result }
{
    write_way(met.contact.from, met.contact.aim, writer)?;
    write_meeting(name, met, writer)?;
    write_free(met.over, met.beside, writer)
}

// The same, if there is such a block.
fn write_obstacle_if<W: Write>(
    name: &[u8],
    met: &Option<Obstacle>,
    writer: &mut W,
) -> Result<(), WriteFault>
    ensures { Wrote (W.contents writer.old) (W.contents writer.new) (obstacle_if name.now met.now) result }
{
    match met {
        Some(met) => write_obstacle(name, met, writer),
        None => Ok(()),
    }
}

// Writes the line of a contact of the box of this name, and the name of its block, if that is among these.
fn write_named<W: Write>(
    name: &[u8],
    first: &FirstContact,
    names: &BlockNames,
    writer: &mut W,
) -> Result<(), WriteFault>
    ensures { Wrote (W.contents writer.old) (W.contents writer.new) (named_contact names.now name.now first.now) result }
{
    write_contact_line(name, &first.told, writer)?;
    names.write_name(Some(first.told.contact.hit.block), writer)
}

/// Writes what is told of the first contact of the box of this name, behind whose step a run that was watched stands.
///
/// Errors: the writer failed, or took no byte; then it has taken a front of the lines, and not all of them.
pub(crate) fn write_first<W: Write>(
    source: &Option<Source<'_>>,
    loaded: &Loaded<'_>,
    watched: &Watched,
    name: &[u8],
    first: &FirstContact,
    met: &Option<Obstacle>,
    names: &BlockNames,
    writer: &mut W,
) -> Result<(), WriteFault>
    ensures { Wrote (W.contents writer.old) (W.contents writer.new) (first_lines names.now source.now loaded.now.statements watched.now.world (seen watched.now.progress) name.now first.now met.now) result }
{
    write_named(name, first, names, writer)?;
    write_where(
        source,
        loaded,
        &watched.world,
        &watched.progress.rounds,
        first.told.number,
        first.told.line,
        writer,
    )?;
    write_obstacle_if(name, met, writer)
}
