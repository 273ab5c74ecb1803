//! The tip, as a carried box.

ghost use Rattle.std.specs.Prelude.{◌≡◌, ◌≤◌, ℕ, IsTrue, IfSome, IfNone};
ghost use Rattle.vcm_num.specs.Point.{coordinate, is_near};
ghost use Rattle.vcm_spec.specs.Workpiece.{is_block};
ghost use Rattle.vcm_spec.specs.Contact.{TipMeets};
ghost use Rattle.vcm_carried.specs.Carried.{IsLeast};
ghost use Rattle.vcm_carried.specs.Laws.{cube};

use crate::crossing::crossing;
use crate::fraction::Fraction;
use crate::way::Way;
use vcm_num::Point;
use vcm_spec::Block3;

// The cube round the centre of the tip, of which `tip` is half the width.
fn cube(tip: u32) -> Block3
    ensures { result ≡ cube tip }
{
    let side = i64::from(tip);
    Block3 {
        low: Point::new(-side, -side, -side),
        high: Point::new(side, side, side),
    }
}

/// The least fraction of the straight way between two points at which the tip, of which `tip` is half the width, meets a block. None where it does
/// not. The points are at most 1,000,000,000 micrometres from 0 on each axis.
pub fn tip_entry(block: &Block3, tip: u32, from: Point, to: Point) -> Option<Fraction>
    requires block { IsTrue (is_block block.now) }
    requires tip { tip ≤ 50000 }
    requires from { IsTrue (is_near from) }
    requires to { IsTrue (is_near to) }
    ensures met { IfSome result (λ f. IsLeast (TipMeets tip (coordinate from) (coordinate to) block.now) f.num f.den) }
    ensures missed { IfNone result ((a b : ℕ) → TipMeets tip (coordinate from) (coordinate to) block.now a b → ⊥) }
{
    let gone = Fraction::whole();
    crossing(block, &cube(tip), &Way { from, to, gone })
}
