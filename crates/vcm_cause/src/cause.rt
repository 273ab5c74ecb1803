//! What a stop in a motion tells of it.

ghost use Rattle.std.specs.Prelude.{◌≡◌};
ghost use Rattle.vcm_cause.specs.Cause.{met, cause_by, cause_of};

use crate::sides::{FreeSide, beside, over};
use vcm_marks::{Contact, Mark};
use vcm_num::Point;
use vcm_part::PartData;
use vcm_spec::Block3;

/// A block that is met: where, the block, the height over which a way is free of it, and the nearest side past which it is.
#[derive(Clone, Copy)]
pub struct Obstacle {
    pub contact: Contact,
    pub block: Block3,
    pub over: Option<i64>,
    pub beside: Option<FreeSide>,
}

/// What a stop tells of a motion.
#[derive(Clone, Copy)]
pub enum Cause {
    /// It is no stop of a motion.
    Elsewhere,
    /// The way from a point to a point.
    Way(Point, Point),
    /// The way on which a block is met.
    Met(Obstacle),
}

// A contact with a block.
fn met(part: &PartData, contact: Contact) -> Cause
    ensures { result ≡ met part.now contact }
{
    let bounds = part.bounds();
    match part.blocks().get(contact.block.saturating_sub(1) as usize) {
        Some(block) => Cause::Met(Obstacle {
            contact,
            block: *block,
            over: over(&bounds, block),
            beside: beside(&bounds, block, contact.from, contact.aim),
        }),
        None => Cause::Way(contact.from, contact.aim),
    }
}

// What a mark tells, if it is the last one of a step that stopped.
fn cause_by(part: &PartData, mark: Mark) -> Cause
    ensures { result ≡ cause_by part.now mark }
{
    match mark {
        Mark::Goes(piece) => Cause::Way(piece.from, piece.aim),
        Mark::Touches(_) => Cause::Elsewhere,
        Mark::Meets(contact) => met(part, contact),
    }
}

/// What the marks of a step that stopped tell of its motion.
pub fn cause_of(part: &PartData, marks: &[Mark]) -> Cause
    ensures { result ≡ cause_of part.now marks.now }
{
    match marks.last() {
        Some(mark) => cause_by(part, *mark),
        None => Cause::Elsewhere,
    }
}
