//! The first contact of a move with a list of blocks.

ghost use Rattle.std.specs.Prelude.{◌≤◌, ℕ, length, IfSome, IfNone, IsTrue};
ghost use Rattle.std.specs.List.{list_all};
ghost use Rattle.vcm_num.specs.Point.{coordinate, is_near};
ghost use Rattle.vcm_spec.specs.Workpiece.{is_block};
ghost use Rattle.vcm_spec.specs.Contact.{TipMeets, IsAnswer};
ghost use Rattle.vcm_motion.specs.inner.Sooner.{IsLeastOf};

use crate::area::{box_of, is_touching};
use crate::axis::between;
use crate::entered::{Entered, sooner};
use crate::fraction::{Fraction, Stretch};
use vcm_num::Point;
use vcm_spec::{Block3, Hit};

/// The fraction at which the tip meets a block on a move, axis by axis.
#[inline(never)]
pub(crate) fn crossing(block: &Block3, tip: u32, from: Point, to: Point) -> Option<Fraction>
    requires block { IsTrue (is_block block.now) }
    requires tip { tip ≤ 50000 }
    requires from { IsTrue (is_near from) }
    requires to { IsTrue (is_near to) }
    ensures met { IfSome result (λ f. IsLeastOf (TipMeets tip (coordinate from) (coordinate to) block.now) f.num f.den) }
    ensures missed { IfNone result ((a b : ℕ) → TipMeets tip (coordinate from) (coordinate to) block.now a b → ⊥) }
{
    let mut stretch = Stretch::whole();
    for axis in 0..3 {
        let part = between(
            block.low.0[axis],
            block.high.0[axis],
            tip,
            from.0[axis],
            to.0[axis],
        )?;
        stretch = stretch.common(part);
    }
    if stretch.leave.is_before(stretch.enter) {
        None
    } else {
        Some(stretch.enter)
    }
}

/// The first block that the tip meets on a move: of those met at the least fraction the one that stands first. A block that the box of the move
/// does not touch is not met, so it isn't looked at axis by axis.
pub(crate) fn first_hit(blocks: &[Block3], tip: u32, from: Point, to: Point) -> Option<Hit>
    requires few { length blocks.now ≤ 4096 }
    requires blocks { IsTrue (list_all is_block blocks.now) }
    requires tip { tip ≤ 50000 }
    requires from { IsTrue (is_near from) }
    requires to { IsTrue (is_near to) }
    ensures { IsAnswer blocks.now (TipMeets tip (coordinate from) (coordinate to)) result }
{
    let area = box_of(from, to, tip);
    let mut first: Option<Entered> = None;
    for (index, block) in blocks.iter().enumerate() {
        if !is_touching(block, &area) {
            continue;
        }
        if let Some(at) = crossing(block, tip, from, to) {
            first = Some(sooner(first, Entered { index, at }));
        }
    }
    Some(first?.hit())
}
