//! Ranges: boxes that may be open at their ends.

ghost use Rattle.std.specs.Prelude.{◌≡◌, ℕ, ℤ, pos, ◌<◌, ◌*ℤ◌, ◌≤ℤ◌, IsTrue};
ghost use lib.Signed.{◌<ℤ◌};
ghost use Rattle.vcm_covering.specs.Covering.{LiesIn};
ghost use Rattle.vcm_boxing.specs.Ranges.{IsIn, IsNowhere, IsOn, IsWith};

use vcm_spec::Block3;

/// A stretch of an axis in micrometres, which may be open at each end.
#[derive(Clone, Copy)]
pub struct Stretch {
    pub low: i32,
    pub high: i32,
    pub open_low: bool,
    pub open_high: bool,
}

/// A stretch of each axis.
#[derive(Clone, Copy)]
pub struct Range(pub [Stretch; 3]);

// Whether a closed stretch holds all of a stretch.
fn holds_stretch(low: i64, high: i64, stretch: &Stretch) -> bool
    ensures { IsTrue result → (low ≤ℤ stretch.now.low) × (stretch.now.high ≤ℤ high) }
{
    low <= i64::from(stretch.low) && i64::from(stretch.high) <= high
}

/// Whether a block holds all of a range.
pub fn holds_range(block: &Block3, range: &Range) -> bool
    ensures { IsTrue result → (s : ℕ) (x : ℕ → ℤ) → IsIn range.now s x → LiesIn block.now s x }
{
    if !holds_stretch(block.low.0[0], block.high.0[0], &range.0[0]) {
        return false;
    }
    if !holds_stretch(block.low.0[1], block.high.0[1], &range.0[1]) {
        return false;
    }
    holds_stretch(block.low.0[2], block.high.0[2], &range.0[2])
}

// A range with another stretch on an axis.
fn with_stretch(range: &Range, axis: usize, stretch: Stretch) -> Range
    requires { axis < 3 }
    ensures { IsWith range.now axis stretch result }
{
    let mut all = *range;
    all.0[axis] = stretch;
    all
}

/// The part of a range below a coordinate on an axis.
pub fn below(range: &Range, axis: usize, at: i32) -> Range
    requires { axis < 3 }
    ensures { (s : ℕ) (x : ℕ → ℤ) → IsIn range.now s x → x axis <ℤ (pos s *ℤ at) → IsIn result s x }
{
    let mut part = range.0[axis];
    part.high = at;
    part.open_high = true;
    with_stretch(range, axis, part)
}

/// The part of a range at a coordinate on an axis.
pub fn level(range: &Range, axis: usize, at: i32) -> Range
    requires { axis < 3 }
    ensures { (s : ℕ) (x : ℕ → ℤ) → IsIn range.now s x → x axis ≡ pos s *ℤ at → IsIn result s x }
{
    let part = Stretch {
        low: at,
        high: at,
        open_low: false,
        open_high: false,
    };
    with_stretch(range, axis, part)
}

/// The part of a range above a coordinate on an axis.
pub fn above(range: &Range, axis: usize, at: i32) -> Range
    requires { axis < 3 }
    ensures { (s : ℕ) (x : ℕ → ℤ) → IsIn range.now s x → (pos s *ℤ at) <ℤ x axis → IsIn result s x }
{
    let mut part = range.0[axis];
    part.low = at;
    part.open_low = true;
    with_stretch(range, axis, part)
}

// Whether a stretch is open and has no length.
fn is_void(stretch: &Stretch) -> bool
    ensures { IsTrue result → (s : ℕ) (z : ℤ) → IsOn stretch.now s z → ⊥ }
{
    if stretch.low < stretch.high {
        return false;
    }
    if stretch.open_low {
        return true;
    }
    stretch.open_high
}

/// Whether no place lies in a range, since on an axis it is open and has no length.
pub fn is_nowhere(range: &Range) -> bool
    ensures { IsTrue result → IsNowhere range.now }
{
    if is_void(&range.0[0]) {
        return true;
    }
    if is_void(&range.0[1]) {
        return true;
    }
    is_void(&range.0[2])
}
