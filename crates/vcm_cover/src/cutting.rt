//! Where a range is divided: at a face of a block, as near to its middle as may be.

ghost use Rattle.std.specs.Prelude.{◌<◌, IfSome};

use vcm_boxing::range::{Range, Stretch};
use vcm_spec::Block3;

/// A plane that divides a range: its axis, and its coordinate there.
#[derive(Clone, Copy)]
pub struct Cut {
    pub axis: usize,
    pub at: i32,
}

// Whether a closed stretch and another one have a coordinate in common.
fn meets_stretch(low: i64, high: i64, stretch: &Stretch) -> bool {
    let after = if stretch.open_low {
        i64::from(stretch.low) < high
    } else {
        i64::from(stretch.low) <= high
    };
    let before = if stretch.open_high {
        low < i64::from(stretch.high)
    } else {
        low <= i64::from(stretch.high)
    };
    after && before
}

/// Whether a block and a range have a place in common.
pub fn meets(block: &Block3, range: &Range) -> bool {
    meets_stretch(block.low.0[0], block.high.0[0], &range.0[0])
        && meets_stretch(block.low.0[1], block.high.0[1], &range.0[1])
        && meets_stretch(block.low.0[2], block.high.0[2], &range.0[2])
}

// Whether a coordinate lies within a stretch, off both ends.
fn is_within(at: i32, stretch: &Stretch) -> bool {
    stretch.low < at && at < stretch.high
}

// Whether a coordinate is nearer to the middle of a stretch than another one, or as near and less.
fn is_nearer(at: i32, other: i32, stretch: &Stretch) -> bool {
    let own = off_middle(at, stretch);
    let its = off_middle(other, stretch);
    own < its || own == its && at < other
}

// The nearer of two coordinates to the middle of a stretch.
fn nearer(best: Option<i32>, at: i32, stretch: &Stretch) -> Option<i32> {
    match best {
        Some(other) if !is_nearer(at, other, stretch) => best,
        _ => Some(at),
    }
}

// Where the face at which a block begins divides a stretch: within it, or at its closed end.
fn divides_before(face: i64, stretch: &Stretch) -> Option<i32> {
    let Ok(at) = i32::try_from(face) else {
        return None;
    };
    let is_end = at == stretch.high && !stretch.open_high && stretch.low < at;
    if is_end || is_within(at, stretch) {
        Some(at)
    } else {
        None
    }
}

// Where the face at which a block ends divides a stretch: within it, or at its closed beginning.
fn divides_after(face: i64, stretch: &Stretch) -> Option<i32> {
    let Ok(at) = i32::try_from(face) else {
        return None;
    };
    let is_start = at == stretch.low && !stretch.open_low && at < stretch.high;
    if is_start || is_within(at, stretch) {
        Some(at)
    } else {
        None
    }
}

// Twice the distance from the middle of a stretch.
fn off_middle(at: i32, stretch: &Stretch) -> i64 {
    let twice = 2 * i64::from(at);
    let ends = i64::from(stretch.low) + i64::from(stretch.high);
    if twice < ends {
        ends.wrapping_sub(twice)
    } else {
        twice.wrapping_sub(ends)
    }
}

// The face of a block that is nearest to the middle of a stretch, if one lies within it.
fn face_on(blocks: &[Block3], near: &[u32], axis: usize, stretch: &Stretch) -> Option<i32>
    requires { axis < 3 }
{
    let mut best = None;
    for number in near {
        let index = *number as usize;
        if index < blocks.len() {
            if let Some(at) = divides_before(blocks[index].low.0[axis], stretch) {
                best = nearer(best, at, stretch);
            }
            if let Some(at) = divides_after(blocks[index].high.0[axis], stretch) {
                best = nearer(best, at, stretch);
            }
        }
    }
    best
}

/// How long a stretch is.
pub fn length_of(stretch: &Stretch) -> i64 {
    i64::from(stretch.high) - i64::from(stretch.low)
}

// The middle of a stretch that is longer than a micrometre.
fn middle(stretch: &Stretch) -> Option<i32> {
    let sum = i64::from(stretch.low) + i64::from(stretch.high);
    divides_before(sum / 2, stretch)
}

// The cut on an axis, unless the best one so far is on a longer stretch.
fn better(best: Option<Cut>, range: &Range, axis: usize, at: Option<i32>) -> Option<Cut>
    requires axis { axis < 3 }
    requires best { IfSome best (λ cut. cut.axis < 3) }
    ensures { IfSome result (λ cut. cut.axis < 3) }
{
    let Some(at) = at else {
        return best;
    };
    match best {
        Some(other) if length_of(&range.0[axis]) <= length_of(&range.0[other.axis]) => best,
        _ => Some(Cut { axis, at }),
    }
}

// The cut at a face of one of some blocks.
fn cut_at_face(blocks: &[Block3], near: &[u32], range: &Range) -> Option<Cut>
    ensures { IfSome result (λ cut. cut.axis < 3) }
{
    let x = better(None, range, 0, face_on(blocks, near, 0, &range.0[0]));
    let y = better(x, range, 1, face_on(blocks, near, 1, &range.0[1]));
    better(y, range, 2, face_on(blocks, near, 2, &range.0[2]))
}

/// Where to divide a range: at a face of one of some blocks, or else in its middle, on the longest axis where that can be.
pub fn choose_cut(blocks: &[Block3], near: &[u32], range: &Range) -> Option<Cut>
    ensures { IfSome result (λ cut. cut.axis < 3) }
{
    match cut_at_face(blocks, near, range) {
        Some(cut) => Some(cut),
        None => {
            let x = better(None, range, 0, middle(&range.0[0]));
            let y = better(x, range, 1, middle(&range.0[1]));
            better(y, range, 2, middle(&range.0[2]))
        }
    }
}
