//! Straight ways of the tip's centre.

ghost use Rattle.std.specs.Prelude.{◌≤◌, IsTrue};
ghost use Rattle.vcm_num.specs.Point.{is_near};

use crate::fraction::Fraction;
use vcm_num::Point;

/// A straight way from one point to another, each at most 1,000,000,000 micrometres from 0 on each axis, and the fraction of it that was gone.
#[derive(Clone, Copy)]
pub struct Way {
    pub from: Point,
    pub to: Point,
    pub gone: Fraction,
    ghost near_from: { IsTrue (is_near from) },
    ghost near_to: { IsTrue (is_near to) },
    ghost within: { gone.num ≤ gone.den },
}
