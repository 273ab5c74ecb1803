//! Frames.

use crate::expressions::untried_value;
use crate::spelled::{Lengths, standing, with_lengths};
use crate::view::{Here, Said};
use std::alloc::Global;
use vcm_classes::{Facts, Frame, MACHINE, Position, Ruling, is_quarter_turn};
use vcm_num::{NoMemory, look_up};
use vcm_sentences::{Table, enclosed, micrometres, read_decimal};
use vcm_spelling::{Named, Rounding, in_millimetres, joined};
use vcm_standard::Reason;

/// A frame that is saved.
#[derive(Clone, Copy)]
pub(crate) struct Saved {
    pub(crate) frame: Frame,
    pub(crate) origin: Option<Position>,
    // Whether it was saved in a block where it isn't known.
    pub(crate) is_lost: bool,
    // Whether it is the machine's, saved under another name before.
    pub(crate) is_other_machine: bool,
}

/// A datum: the feature that it is of, its row, and the frame that is current there.
#[derive(Clone, Copy)]
pub(crate) struct Datum<'a> {
    pub(crate) feature: &'a [u8],
    pub(crate) row: usize,
    pub(crate) frame: Frame,
}

/// What is known of the frames.
#[derive(Drop)]
pub(crate) struct Frames<'a> {
    pub(crate) saved: Table<'a, Saved>,
    pub(crate) datums: Table<'a, Datum<'a>>,
    // The name that the machine's frame is saved under.
    pub(crate) machine: Option<&'a [u8]>,
}

impl<'a> Frames<'a> {
    /// None yet.
    pub(crate) fn new(alloc: Global) -> Frames<'a> {
        Frames {
            saved: Table::new(alloc),
            datums: Table::new(alloc),
            machine: None,
        }
    }

    /// The current frame isn't known, and is saved under a name.
    pub(crate) fn save_lost(
        &mut self,
        here: &mut Here<'a>,
        label: &'a [u8],
    ) -> Result<(), NoMemory> {
        here.lose_frame();
        self.saved.set(
            label,
            Saved {
                frame: Frame::Unknown,
                origin: None,
                is_lost: !here.is_outside,
                is_other_machine: false,
            },
        )
    }

    /// The current frame is saved under a name.
    pub(crate) fn save(
        &mut self,
        here: &Here<'a>,
        label: &'a [u8],
        is_other_machine: bool,
    ) -> Result<(), NoMemory> {
        let was_lost = self.saved.get(label).is_some_and(|saved| saved.is_lost);
        let origin = if here.is_outside {
            here.flow.origin
        } else {
            None
        };
        self.saved.set(
            label,
            Saved {
                frame: here.flow.frame,
                origin,
                is_lost: was_lost,
                is_other_machine,
            },
        )
    }

    /// A frame that isn't tried.
    pub(crate) fn untried(
        &mut self,
        here: &mut Here<'a>,
        label: &'a [u8],
        reason: Reason,
    ) -> Result<Ruling, NoMemory> {
        self.save_lost(here, label)?;
        Ok(Ruling::NotTried(reason))
    }
}

// The words of origins, each with its axis.
const ORIGINS: &[(&[u8], usize)] = &[(b"XORIG", 0), (b"YORIG", 1), (b"ZORIG", 2)];

/// The axis of an origin: 0 to 2.
pub(crate) fn origin_axis(bytes: &[u8]) -> Option<usize> {
    look_up(ORIGINS, bytes)
}

// A position with something added along an axis.
fn shifted(position: Position, axis: usize, by: i64) -> Position {
    let [x, y, z] = [
        if axis == 0 { by } else { 0 },
        if axis == 1 { by } else { 0 },
        if axis == 2 { by } else { 0 },
    ];
    Position {
        x: position.x.saturating_add(x),
        y: position.y.saturating_add(y),
        z: position.z.saturating_add(z),
    }
}

// Where the origin lies behind a TRANS with these fields, where they are literals.
fn moved_origin(origin: Position, fields: &[&[u8]], is_inch: bool) -> Option<Position> {
    let mut position = origin;
    let mut axis = None;
    for field in fields {
        match axis {
            None => axis = Some(origin_axis(field)?),
            Some(known) => {
                let by = micrometres(in_millimetres(read_decimal(field)?.value, is_inch));
                position = shifted(position, known, by);
                axis = None;
            }
        }
    }
    Some(position)
}

// Whether the fields of a TRANS are origins, each with its value.
fn are_origins(fields: &[&[u8]]) -> bool {
    let mut is_name = true;
    for field in fields {
        if is_name && origin_axis(field).is_none() {
            return false;
        }
        is_name = !is_name;
    }
    is_name && !fields.is_empty()
}

// Why a TRANS isn't tried, if it isn't.
fn untried_translation<'a>(
    said: Said<'_, 'a>,
    here: &Here<'a>,
    facts: &Facts<'a>,
) -> Option<Reason> {
    if !are_origins(said.fields) {
        Some(Reason::UnknownFrames)
    } else if !here.flow.is_known() || !said.ground.traits.is_followed {
        Some(Reason::UnknownFrame)
    } else {
        untried_value(facts, said.parts.rest, said.ground.options.is_exact)
    }
}

/// TRANS.
pub(crate) fn translate<'a>(
    said: Said<'_, 'a>,
    here: &mut Here<'a>,
    facts: &Facts<'a>,
    frames: &mut Frames<'a>,
    rounding: &mut Rounding,
) -> Result<Ruling, NoMemory> {
    let label = said.parts.title;
    if let Some(reason) = untried_translation(said, here, facts) {
        return frames.untried(here, label, reason);
    }
    let origin = match here.flow.origin {
        Some(origin) => moved_origin(origin, said.fields, said.ground.traits.is_inch),
        None => None,
    };
    here.enter_new(origin);
    frames.save(here, label, false)?;
    match with_lengths(said, Lengths::Odd, rounding)? {
        Ruling::NotTried(reason) => frames.untried(here, label, reason),
        ruling => Ok(ruling),
    }
}

/// ROTATE.
pub(crate) fn rotate<'a>(
    said: Said<'_, 'a>,
    here: &mut Here<'a>,
    frames: &mut Frames<'a>,
    rounding: &mut Rounding,
) -> Result<Ruling, NoMemory> {
    let label = said.parts.title;
    if !is_quarter_turn(said.fields) {
        return frames.untried(here, label, Reason::OddTurns);
    }
    if !here.flow.is_known() {
        return frames.untried(here, label, Reason::UnknownFrame);
    }
    here.enter_new(None);
    frames.save(here, label, false)?;
    standing(said, rounding)
}

/// RECALL.
pub(crate) fn recall<'a>(
    said: Said<'_, 'a>,
    here: &mut Here<'a>,
    frames: &Frames<'a>,
    rounding: &mut Rounding,
) -> Result<Ruling, NoMemory> {
    let saved = match enclosed(said.parts.rest, b"D(") {
        Some(label) => frames.saved.get(label),
        None => None,
    };
    here.lose_frame();
    let Some(saved) = saved else {
        return Ok(Ruling::NotTried(Reason::UnknownFrames));
    };
    if saved.is_lost || matches!(saved.frame, Frame::Unknown) {
        return Ok(Ruling::NotTried(Reason::UnknownFrames));
    }
    here.flow.frame = saved.frame;
    here.flow.origin = saved.origin;
    if saved.is_other_machine {
        recall_machine(said, frames)
    } else {
        standing(said, rounding)
    }
}

/// The statement that recalls the machine's frame, where it was saved.
pub(crate) fn machine_recall(
    said: Said<'_, '_>,
    frames: &Frames<'_>,
) -> Result<Option<Vec<u8>>, NoMemory> {
    let Some(label) = frames.machine else {
        return Ok(None);
    };
    let name = said.ground.naming.label(Named::Frame, label);
    Ok(Some(joined(said.ground.alloc, &[b"RECALL/D(", name, b")"])?))
}

// The statement that recalls the machine's frame, for another one.
fn recall_machine(said: Said<'_, '_>, frames: &Frames<'_>) -> Result<Ruling, NoMemory> {
    match machine_recall(said, frames)? {
        Some(new) => Ok(Ruling::Put(Reason::MachineFrame, new)),
        None => Ok(Ruling::NotTried(Reason::MachineFrame)),
    }
}

// The first DATSET/MCS, in the machine's frame.
fn first_machine_frame<'a>(
    said: Said<'_, 'a>,
    here: &mut Here<'a>,
    frames: &mut Frames<'a>,
) -> Result<Ruling, NoMemory> {
    let label = said.parts.title;
    frames.machine = Some(label);
    here.enter_machine();
    frames.save(here, label, false)?;
    let name = said.ground.naming.label(Named::Frame, label);
    let new = joined(said.ground.alloc, &[b"D(", name, b")=TRANS/XORIG,0"])?;
    Ok(Ruling::Put(Reason::MachineFrame, new))
}

/// DATSET/MCS.
pub(crate) fn machine_frame<'a>(
    said: Said<'_, 'a>,
    here: &mut Here<'a>,
    frames: &mut Frames<'a>,
) -> Result<Ruling, NoMemory> {
    if frames.machine.is_some() {
        here.enter_machine();
        frames.save(here, said.parts.title, true)?;
        return recall_machine(said, frames);
    }
    if here.flow.is_in(MACHINE) && here.is_outside {
        first_machine_frame(said, here, frames)
    } else {
        frames.untried(here, said.parts.title, Reason::UnknownFrames)
    }
}
