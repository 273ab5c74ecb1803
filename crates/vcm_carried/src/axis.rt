//! One axis of a way: the stretch of it in which a carried box meets what lies between two faces.

ghost use Rattle.std.specs.Prelude.{pos, ◌-ℤ◌, ◌≤ℤ◌};
ghost use Rattle.vcm_num.specs.Point.{IsNear};
ghost use Rattle.vcm_spec.specs.Contact.{IsBetween};
ghost use Rattle.vcm_motion.specs.inner.Stretches.{IsReached};
ghost use Rattle.vcm_carried.specs.Carried.{AreSides};
ghost use Rattle.vcm_carried.specs.inner.Shared.{IsApart, IsStretchOf};

use crate::fraction::{Fraction, Stretch};

// The stretch of a way of length `run` that lies from `near` to `far` ahead of its start.
fn reach(near: i64, far: i64, run: i64) -> Option<Stretch>
    requires near { IsApart near }
    requires far { IsApart far }
    requires run { IsApart run }
    requires forward { pos 0 ≤ℤ run }
    ensures { IsStretchOf result (IsReached near far run) }
{
    if far < 0 || run < near {
        None
    } else if run == 0 {
        Some(Stretch::whole())
    } else {
        let den = run as u32;
        Some(Stretch {
            enter: Fraction {
                num: near.max(0) as u32,
                den,
            },
            leave: Fraction {
                num: far as u32,
                den,
            },
        })
    }
}

/// The stretch of a way in which a box meets what lies from `low` to `high`, one coordinate of the tip's centre going from `from` to `to`, and the sides
/// of the box lying from `left` to `right` beside it.
pub(crate) fn between(
    low: i64,
    high: i64,
    left: i64,
    right: i64,
    from: i64,
    to: i64,
) -> Option<Stretch>
    requires low { IsNear low }
    requires high { IsNear high }
    requires sides { AreSides 10050000 left right }
    requires from { IsNear from }
    requires to { IsNear to }
    ensures { IsStretchOf result (IsBetween (low -ℤ right) (high -ℤ left) from to) }
{
    let low = low - right;
    let high = high - left;
    if from <= to {
        reach(low - from, high - from, to - from)
    } else {
        // mirrored
        reach(from - high, from - low, from - to)
    }
}
