//! Where a carried body first meets a block.

ghost use Rattle.std.specs.Prelude.{◌≡◌, ◌≤◌, ◌<◌, ◌⊎◌, ◌*◌, ℕ, map, length, IsTrue, IfSome, IfNone};
ghost use Rattle.std.specs.List.{list_all, AllByRecursion};
ghost use Rattle.vcm_num.specs.Point.{coordinate};
ghost use Rattle.vcm_spec.specs.Workpiece.{grown, is_block};
ghost use Rattle.vcm_spec.specs.FirstContact.{fraction};
ghost use Rattle.vcm_carried.specs.Carried.{IsBox, IsLeast, IsFirstContact};
ghost use Rattle.vcm_carried.specs.Bodies.{BodyMeetsBy, BodyCounts};
ghost use Rattle.vcm_carried.specs.inner.Shared.{IsLesser};

use crate::area::is_touching;
use crate::contact::Contact;
use crate::crossing::crossing;
use crate::entered::{Entered, sooner};
use crate::fraction::Fraction;
use crate::hull::swept_by;
use crate::meeting::contact;
use crate::way::Way;
use crate::wider::grown;
use vcm_spec::Block3;

// The lesser of a fraction and another one, if there is one.
fn lesser(at: Fraction, other: Option<Fraction>) -> Fraction
    ensures { IsLesser at other result }
{
    match other {
        None => at,
        Some(other) => { if other.is_before(at) { other } else { at } }
    }
}

// The fraction at which a body, the sides of its boxes moved out, first meets a block on what was gone of a way.
fn crossing_by(block: &Block3, body: &[Block3], by: u32, way: &Way) -> Option<Fraction>
    requires block { IsTrue (is_block block.now) }
    requires body { AllByRecursion (IsBox 10000000) body.now }
    requires by { by ≤ 50000 }
    ensures met { IfSome result (λ f. IsLeast
        (BodyMeetsBy (fraction way.now.gone.num way.now.gone.den) (map (grown by) body.now) (coordinate way.now.from) (coordinate way.now.to) block.now) f.num f.den) }
    ensures missed { IfNone result ((a b : ℕ)
        → BodyMeetsBy (fraction way.now.gone.num way.now.gone.den) (map (grown by) body.now) (coordinate way.now.from) (coordinate way.now.to) block.now a b → ⊥) }
{
    let (first, others) = body.split_first()?;
    let behind = crossing_by(block, others, by, way);
    match crossing(block, &grown(first, by), way) {
        None => behind,
        Some(at) => Some(lesser(at, behind)),
    }
}

// The fraction at which a block first counts: where the start counts too, or no box of the body meets the block there.
fn counted_by(
    block: &Block3,
    body: &[Block3],
    by: u32,
    way: &Way,
    with_start: bool,
) -> Option<Fraction>
    requires block { IsTrue (is_block block.now) }
    requires body { AllByRecursion (IsBox 10000000) body.now }
    requires by { by ≤ 50000 }
    ensures met { IfSome result (λ f. IsLeast (BodyCounts with_start (fraction way.now.gone.num way.now.gone.den) (map (grown by) body.now)
        (coordinate way.now.from) (coordinate way.now.to) block.now) f.num f.den) }
    ensures missed { IfNone result ((a b : ℕ) → BodyCounts with_start (fraction way.now.gone.num way.now.gone.den) (map (grown by) body.now)
        (coordinate way.now.from) (coordinate way.now.to) block.now a b → ⊥) }
{
    let at = crossing_by(block, body, by, way)?;
    if with_start {
        return Some(at);
    }
    if at.num > 0 { Some(at) } else { None }
}

/// The first contact of a body that is carried along what was gone of a way, with the blocks that count: where the start counts too, all that a box of the body meets,
/// else those that no box of it meets at the start of the way. The sides of its boxes, which are at most 10,000,000 micrometres from the centre of the tip, are moved out by
/// so many micrometres, at most 50,000. What is told is as for one box: see `first_met`.
pub fn first_met_by(
    blocks: &[Block3],
    body: &[Block3],
    by: u32,
    way: &Way,
    with_start: bool,
) -> Option<Contact>
    requires few { length blocks.now ≤ 4096 }
    requires blocks { IsTrue (list_all is_block blocks.now) }
    requires body { AllByRecursion (IsBox 10000000) body.now }
    requires by { by ≤ 50000 }
    ensures { IsFirstContact blocks.now
        (BodyCounts with_start (fraction way.now.gone.num way.now.gone.den) (map (grown by) body.now) (coordinate way.now.from) (coordinate way.now.to))
        (coordinate way.now.from) (coordinate way.now.to) result }
{
    let area = swept_by(body, by, way)?;
    let mut first: Option<Entered> = None;
    for (index, block) in blocks.iter().enumerate() {
        if !is_touching(block, &area) {
            continue;
        }
        if let Some(at) = counted_by(block, body, by, way, with_start) {
            first = Some(sooner(first, Entered { index, at }));
        }
    }
    Some(contact(first?, way))
}
