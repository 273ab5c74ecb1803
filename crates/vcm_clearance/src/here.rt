//! Where the step of a way stands, and what is kept of narrow places.

ghost use Rattle.std.specs.Prelude.{◌≡◌};
ghost use Rattle.vcm_num.specs.Written.{Wrote};
ghost use Rattle.vcm_clearance.specs.inner.Here.{here_text, past_text, is_narrowed, kept_on};

use crate::room::Room;
use std::io::Write;
use vcm_backtrace::{Kept, Source, Standing, write_backtrace};
use vcm_items::Tables;
use vcm_loader::Loaded;
use vcm_marks::Moment;
use vcm_num::WriteFault;

/// A step whose ways are tried: its place in the run, where it stands, and by what the backtrace of its statement is told.
#[derive(Clone, Copy)]
pub(crate) struct Here<'a> {
    pub(crate) place: Moment,
    pub(crate) source: &'a Option<Source<'a>>,
    pub(crate) loaded: &'a Loaded<'a>,
    pub(crate) standing: Standing<'a>,
}

/// By what the backtraces are told, at the end of a run, of the statements of places where it is narrowest round its boxes.
#[derive(Clone, Copy)]
pub(crate) struct Behind<'a> {
    pub(crate) source: &'a Option<Source<'a>>,
    pub(crate) loaded: &'a Loaded<'a>,
    pub(crate) tables: &'a Tables,
}

/// Writes the backtrace of the statement of a step.
///
/// Errors: the writer failed, or took no byte; then it has taken a front of the lines, and not all of them.
pub(crate) fn write_here<W: Write>(here: &Here<'_>, writer: &mut W) -> Result<(), WriteFault>
    ensures { Wrote (W.contents writer.old) (W.contents writer.new) (here_text here.now) result }
{
    let number = here.place.number;
    write_backtrace(here.source, here.loaded, &here.standing, number, writer)
}

/// Writes the backtrace of the statement with this number, of a place of which this is kept.
///
/// Errors: the writer failed, or took no byte; then it has taken a front of the lines, and not all of them.
pub(crate) fn write_behind<W: Write>(
    behind: &Behind<'_>,
    kept: &Kept,
    number: u32,
    writer: &mut W,
) -> Result<(), WriteFault>
    ensures { Wrote (W.contents writer.old) (W.contents writer.new)
        (past_text behind.now.source.now behind.now.loaded.now.statements behind.now.tables.now kept.now number) result }
{
    let standing = kept.standing(behind.tables);
    write_backtrace(behind.source, behind.loaded, &standing, number, writer)
}

// Whether the place that is narrowest round a box is one of this step.
fn is_narrowed(room: Room, place: Moment) -> bool
    ensures { result ≡ is_narrowed room place }
{
    match room {
        Room::Met(_) => false,
        Room::Clear(_, None) => false,
        Room::Clear(_, Some(told)) => told.step == place.step && told.number == place.number,
    }
}

/// Keeps where a step stands, if the place that is narrowest round the box of this index is one of it.
pub(crate) fn keep_if(kept: &mut Vec<Kept>, index: usize, room: Room, here: &Here<'_>)
    ensures { kept.new.items ≡ kept_on kept.old.items index room here.now }
{
    if index < kept.len() && is_narrowed(room, here.place) {
        kept[index].keep(&here.standing);
    }
}
