//! Frames that are given.

ghost use Rattle.std.specs.Prelude.{◌≡◌, ◌++◌, ◌∷◌, [], IfOk, OnOk};
ghost use Rattle.std.specs.List.{flat_map};
ghost use Rattle.std.specs.Option.{option_copied};
ghost use Rattle.vcm_spec.specs.declared.words.FrameAxis.TheVariants as axes;
ghost use Rattle.vcm_given.specs.Chosen.{offset, turned, placed, frame_named, machine_again, on_line};

use crate::choices::GivenFrame;
use crate::statements::add;
use std::alloc::Global;
use vcm_events::{Event, gained, length};
use vcm_forms::{Form, Offset, Statement};
use vcm_items::Name;
use vcm_num::{Items, NoMemory, is};
use vcm_spec::{FrameAxis, Quarters};

// A shift along an axis.
fn offset(alloc: Global, axis: FrameAxis, micrometres: i32) -> Result<Offset, NoMemory>
    ensures { IfOk result (λ o. o ≡ offset axis micrometres) }
{
    let length = length(alloc, micrometres)?;
    Ok(Offset { axis, length })
}

// The shifts of a frame along the machine's axes.
fn offsets(alloc: Global, frame: &GivenFrame) -> Result<Items<Offset>, NoMemory>
    ensures { IfOk result (λ os. os ≡ offset axes.X frame.now.x ∷ offset axes.Y frame.now.y ∷ offset axes.Z frame.now.z ∷ []) }
{
    let mut offsets = Items::new(alloc);
    offsets.push(offset(alloc, FrameAxis::X, frame.x)?)?;
    offsets.push(offset(alloc, FrameAxis::Y, frame.y)?)?;
    offsets.push(offset(alloc, FrameAxis::Z, frame.z)?)?;
    Ok(offsets)
}

// The turn of a frame, under its name.
fn turn(
    out: &mut Vec<Statement>,
    line: u32,
    name: &Name,
    turn: Option<(FrameAxis, Quarters)>,
) -> Result<(), NoMemory>
    ensures { OnOk result (out.new.items ≡ out.old.items ++ on_line line (turned name.now turn)) }
{
    match turn {
        Some((axis, quarters)) => add(out, line, Form::Rotation(name.copy(), axis, quarters)),
        None => Ok(()),
    }
}

/// A frame that is given: the machine's, shifted and turned.
pub(crate) fn place(
    alloc: Global,
    out: &mut Vec<Statement>,
    line: u32,
    frame: &GivenFrame,
) -> Result<(), NoMemory>
    ensures { OnOk result (out.new.items ≡ out.old.items ++ on_line line (placed frame.now)) }
{
    let offsets = offsets(alloc, frame)?;
    add(out, line, gained(Event::Machine))?;
    add(out, line, Form::Shift(frame.name.copy(), offsets))?;
    turn(out, line, &frame.name, frame.turn)
}

// Frames that are given, one behind the other.
fn place_each(
    alloc: Global,
    out: &mut Vec<Statement>,
    line: u32,
    frames: &[GivenFrame],
) -> Result<(), NoMemory>
    ensures { OnOk result (out.new.items ≡ out.old.items ++ on_line line (flat_map placed frames.now)) }
{
    for frame in frames {
        place(alloc, out, line, frame)?;
    }
    Ok(())
}

/// Where the frames lie; the machine's is current behind them.
pub(crate) fn place_all(
    alloc: Global,
    out: &mut Vec<Statement>,
    line: u32,
    frames: &[GivenFrame],
) -> Result<(), NoMemory>
    ensures { OnOk result (out.new.items ≡ out.old.items ++ on_line line (flat_map placed frames.now ++ machine_again frames.now)) }
{
    if frames.is_empty() {
        return Ok(());
    }
    place_each(alloc, out, line, frames)?;
    add(out, line, gained(Event::Machine))
}

/// The frame with this name, if it is given.
pub(crate) fn frame_named<'a>(name: &Name, frames: &'a [GivenFrame]) -> Option<&'a GivenFrame>
    ensures { option_copied result ≡ frame_named name.now frames.now }
{
    for frame in frames {
        if is(frame.name.as_bytes(), name.as_bytes()) {
            return Some(frame);
        }
    }
    None
}
