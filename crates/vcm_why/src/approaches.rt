//! The greatest approach with which the way to the approach point is free of the block that was met. Nothing here takes memory.

ghost use Rattle.std.specs.Prelude.{◌≡◌, ◌≤◌, IsTrue};
ghost use Rattle.vcm_spec.specs.Workpiece.{is_block};
ghost use Rattle.vcm_num.specs.Written.{Wrote};
ghost use Rattle.vcm_why.specs.Approaches.{declared_direction, given_or, measured_in, toward_of, approach_text, approach_line, free_of, free_with, approach_at, approach_lines};

use crate::causes::write_length;
use std::io::Write;
use vcm_cause::{ApproachWay, Cause, free_approach};
use vcm_code::Op;
use vcm_fields::BorrowedOp;
use vcm_marks::Contact;
use vcm_num::{Axis, WriteFault, write_all};
use vcm_part::PartData;
use vcm_spec::{Block3, Simple};
use vcm_state::World;

// The direction of a feature as it is declared, if it is.
fn declared_direction(world: &World, feature: u16) -> Option<Axis>
    ensures { result ≡ declared_direction world.now.state feature }
{
    match world.nominal().get(usize::from(feature)) {
        Some(Some(declared)) => Some(declared.toward),
        Some(None) => None,
        None => None,
    }
}

// The direction in which a PTMEAS of a feature measures: the given one, or else the declared one.
fn given_or(world: &World, feature: u16, given: Option<Axis>) -> Option<Axis>
    ensures { result ≡ given_or world.now.state feature given }
{
    match given {
        Some(toward) => Some(toward),
        None => declared_direction(world, feature),
    }
}

// The direction of the part in which a statement measures, if it measures.
fn measured_in(world: &World, op: &BorrowedOp<'_>) -> Option<Axis>
    ensures { result ≡ measured_in world.now.state op.now }
{
    match op {
        Op::Plain(Simple::PtMeas(feature, _, _, _, given)) => given_or(world, *feature, *given),
        _ => None,
    }
}

// The direction of the machine from which a statement measures, if it measures.
fn toward_of(world: &World, op: &BorrowedOp<'_>) -> Option<Axis>
    ensures { result ≡ toward_of world.now.state op.now }
{
    match measured_in(world, op) {
        Some(toward) => Some(world.frame().direction(toward)),
        None => None,
    }
}

// Writes the greatest approach that is free.
fn write_free<W: Write>(length: u32, writer: &mut W) -> Result<(), WriteFault>
    ensures { Wrote (W.contents writer.old) (W.contents writer.new) (approach_text length) result }
{
    write_all(writer, b"an approach of ")?;
    write_length(i64::from(length), writer)?;
    write_all(writer, b" at most is free of it\n")
}

// Writes it, if there is one.
fn write_free_if<W: Write>(length: Option<u32>, writer: &mut W) -> Result<(), WriteFault>
    ensures { Wrote (W.contents writer.old) (W.contents writer.new) (approach_line length) result }
{
    match length {
        Some(length) => write_free(length, writer),
        None => Ok(()),
    }
}

// The greatest approach with which a way to an approach point is free of a block.
fn free_of(tip: u32, block: &Block3, way: ApproachWay) -> Option<u32>
    requires block { IsTrue (is_block block.now) }
    requires tip { tip ≤ 50000 }
    ensures { result ≡ free_of tip block.now way }
{
    free_approach(tip, block, way)
}

// The same of the block with this number.
fn free_with(part: &PartData, block: u32, way: ApproachWay) -> Option<u32>
    ensures { result ≡ free_with part.now block way }
{
    let tip = part.bounds().tip;
    match part.blocks().get(block.saturating_sub(1) as usize) {
        Some(block) => free_of(tip, block, way),
        None => None,
    }
}

// The same of a contact on the way to the approach point of a measurement in this direction.
fn approach_at(
    part: &PartData,
    world: &World,
    contact: Contact,
    toward: Option<Axis>,
) -> Option<u32>
    ensures { result ≡ approach_at part.now world.now.state contact toward }
{
    match toward {
        Some(toward) => {
            let way = ApproachWay {
                from: contact.from,
                aim: contact.aim,
                toward,
                distance: world.settings().approach(),
            };
            free_with(part, contact.block, way)
        }
        None => None,
    }
}

/// Writes the greatest approach with which the way of a collision is free of the block, at a statement that does this.
///
/// Errors: the writer failed, or took no byte; then it has taken a front of the line, and not all of it.
pub(crate) fn write_approach<W: Write>(
    part: &PartData,
    world: &World,
    op: &BorrowedOp<'_>,
    cause: &Cause,
    writer: &mut W,
) -> Result<(), WriteFault>
    ensures { Wrote (W.contents writer.old) (W.contents writer.new) (approach_lines part.now world.now.state op.now cause.now) result }
{
    match cause {
        Cause::Elsewhere => Ok(()),
        Cause::Way(_, _) => Ok(()),
        Cause::Met(met) => {
            let toward = toward_of(world, op);
            write_free_if(approach_at(part, world, met.contact, toward), writer)
        }
    }
}
