//! The box that holds all boxes of a body.

ghost use Rattle.std.specs.Prelude.{◌≡◌, ◌≤◌, [], map, IfSome, IfNone};
ghost use Rattle.std.specs.List.{AllByRecursion};
ghost use Rattle.vcm_spec.specs.Workpiece.{grown};
ghost use Rattle.vcm_carried.specs.Carried.{IsBox};
ghost use Rattle.vcm_carried.specs.inner.Shared.{IsHeldBy, AreSweptBy};

use crate::area::swept;
use crate::way::Way;
use crate::wider::grown;
use vcm_num::Point;
use vcm_spec::Block3;

// The box that holds two.
fn around(one: &Block3, other: &Block3) -> Block3
    requires one { IsBox 10000000 one.now }
    requires other { IsBox 10000000 other.now }
    ensures is { IsBox 10000000 result }
    ensures one { IsHeldBy result one.now }
    ensures other { IsHeldBy result other.now }
{
    let Point([a, b, c]) = one.low;
    let Point([d, e, f]) = one.high;
    let Point([g, h, i]) = other.low;
    let Point([j, k, l]) = other.high;
    Block3 {
        low: Point([a.min(g), b.min(h), c.min(i)]),
        high: Point([d.max(j), e.max(k), f.max(l)]),
    }
}

// The box that holds all boxes of a body, if it has any.
fn hull(body: &[Block3]) -> Option<Block3>
    requires { AllByRecursion (IsBox 10000000) body.now }
    ensures is { IfSome result (IsBox 10000000) }
    ensures holds { IfSome result (λ h. AllByRecursion (IsHeldBy h) body.now) }
    ensures none { IfNone result (body.now ≡ []) }
{
    let (first, others) = body.split_first()?;
    match hull(others) {
        None => Some(*first),
        Some(other) => Some(around(first, &other)),
    }
}

/// The box that holds all boxes of a body, with their sides moved out, on all of a way; none where the body has no boxes.
pub(crate) fn swept_by(body: &[Block3], by: u32, way: &Way) -> Option<Block3>
    requires body { AllByRecursion (IsBox 10000000) body.now }
    requires by { by ≤ 50000 }
    ensures swept { IfSome result (AreSweptBy (map (grown by) body.now) way.now.from way.now.to) }
    ensures none { IfNone result (body.now ≡ []) }
{
    let hull = hull(body)?;
    Some(swept(&grown(&hull, by), way))
}
