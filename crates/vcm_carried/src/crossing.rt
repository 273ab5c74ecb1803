//! Where a carried box meets one block.

ghost use Rattle.std.specs.Prelude.{ℕ, IsTrue, IfSome, IfNone};
ghost use Rattle.vcm_num.specs.Point.{coordinate};
ghost use Rattle.vcm_spec.specs.Workpiece.{is_block};
ghost use Rattle.vcm_spec.specs.FirstContact.{fraction};
ghost use Rattle.vcm_carried.specs.Carried.{IsBox, IsLeast, BoxMeetsBy, Counts};

use crate::axis::between;
use crate::fraction::{Fraction, Stretch};
use crate::way::Way;
use vcm_spec::Block3;

/// The fraction at which a box first meets a block on what was gone of a way, axis by axis.
#[inline(never)]
pub(crate) fn crossing(block: &Block3, carried: &Block3, way: &Way) -> Option<Fraction>
    requires block { IsTrue (is_block block.now) }
    requires carried { IsBox 10050000 carried.now }
    ensures met { IfSome result (λ f. IsLeast
        (BoxMeetsBy (fraction way.now.gone.num way.now.gone.den) carried.now (coordinate way.now.from) (coordinate way.now.to) block.now) f.num f.den) }
    ensures missed { IfNone result ((a b : ℕ)
        → BoxMeetsBy (fraction way.now.gone.num way.now.gone.den) carried.now (coordinate way.now.from) (coordinate way.now.to) block.now a b → ⊥) }
{
    let mut stretch = Stretch {
        enter: Fraction::start(),
        leave: way.gone,
    };
    for axis in 0..3 {
        let part = between(
            block.low.0[axis],
            block.high.0[axis],
            carried.low.0[axis],
            carried.high.0[axis],
            way.from.0[axis],
            way.to.0[axis],
        )?;
        stretch = stretch.common(part);
    }
    if stretch.leave.is_before(stretch.enter) {
        None
    } else {
        Some(stretch.enter)
    }
}

/// The fraction at which a block first counts: where the start counts too, or the box does not meet the block there.
pub(crate) fn counted(
    block: &Block3,
    carried: &Block3,
    way: &Way,
    with_start: bool,
) -> Option<Fraction>
    requires block { IsTrue (is_block block.now) }
    requires carried { IsBox 10050000 carried.now }
    ensures met { IfSome result (λ f. IsLeast
        (Counts with_start (fraction way.now.gone.num way.now.gone.den) carried.now (coordinate way.now.from) (coordinate way.now.to) block.now) f.num f.den) }
    ensures missed { IfNone result ((a b : ℕ)
        → Counts with_start (fraction way.now.gone.num way.now.gone.den) carried.now (coordinate way.now.from) (coordinate way.now.to) block.now a b → ⊥) }
{
    let at = crossing(block, carried, way)?;
    if with_start {
        return Some(at);
    }
    if at.num > 0 { Some(at) } else { None }
}
