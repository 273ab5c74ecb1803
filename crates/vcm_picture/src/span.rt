//! The least and the greatest coordinate on an axis.

ghost use Rattle.std.specs.Prelude.{◌≡◌, ◌<◌, ◌≤ℤ◌, pos, IsTrue};
ghost use Rattle.std.specs.List.{list_all};
ghost use Rattle.vcm_num.specs.Point.{IsNear, is_near, coordinate};
ghost use Rattle.vcm_spec.specs.Workpiece.{is_block};
ghost use Rattle.vcm_picture.specs.Span.{widened, single, over_block, of_block, over_blocks, over_mark, over_marks, span_of_all, span_of};
ghost use Rattle.vcm_picture.specs.Window.{size};

use crate::drawn::drawn_at;
use std::marker::Model;
use vcm_marks::{Mark, PlacedMark};
use vcm_num::Point;
use vcm_spec::Block3;

/// The least and the greatest coordinate of some points on an axis, in micrometres.
#[derive(Clone, Copy)]
pub struct Span {
    low: i64,
    high: i64,
}

impl Model for Span {
    ghost use Rattle.vcm_picture.specs.Sights.{Span as Meaning};
    ghost use Rattle.vcm_picture.specs.Ranges.{IsSpan};

    ghost Value = { Meaning };

    ghost view = { λ s. record { low = s.low; high = s.high } };

    ghost invariant = { λ s. IsSpan (record { low = s.low; high = s.high }) };

    ghost inverse = { λ s. record { low = s.low; high = s.high } };
}

impl Span {
    /// Its least coordinate.
    pub(crate) fn low(self) -> i64
        ensures value { result ≡ self.low }
        ensures near { IsNear result }
    {
        self.low
    }

    /// How far it extends.
    pub(crate) fn size(self) -> i64
        ensures value { result ≡ size self }
        ensures from_zero { pos 0 ≤ℤ result }
        ensures to_most { result ≤ℤ pos 2000000000 }
    {
        self.high - self.low
    }
}

// With one more coordinate.
fn widened(span: Span, coordinate: i64) -> Span
    requires coordinate { IsNear coordinate }
    ensures { result ≡ widened span coordinate }
{
    Span {
        low: span.low.min(coordinate),
        high: span.high.max(coordinate),
    }
}

// With one more point.
fn over_point(span: Span, axis: usize, at: Point) -> Span
    requires axis { axis < 3 }
    requires at { IsTrue (is_near at) }
    ensures { result ≡ widened span (coordinate at axis) }
{
    widened(span, at.0[axis])
}

// With both corners of a block.
fn over_block(span: Span, axis: usize, block: &Block3) -> Span
    requires axis { axis < 3 }
    requires block { IsTrue (is_block block.now) }
    ensures { result ≡ over_block axis span block.now }
{
    over_point(over_point(span, axis, block.low), axis, block.high)
}

// With those of blocks.
fn over_blocks(span: Span, axis: usize, blocks: &[Block3]) -> Span
    requires axis { axis < 3 }
    requires blocks { IsTrue (list_all is_block blocks.now) }
    ensures { result ≡ over_blocks axis span blocks.now }
{
    let mut span = span;
    for block in blocks {
        span = over_block(span, axis, block);
    }
    span
}

// With both ends of a piece.
fn over_mark(span: Span, axis: usize, mark: &Mark) -> Span
    requires axis { axis < 3 }
    ensures { result ≡ over_mark axis span mark.now }
{
    match mark {
        Mark::Goes(piece) => {
            let span = over_point(span, axis, drawn_at(piece.from));
            over_point(span, axis, drawn_at(piece.to))
        }
        Mark::Touches(_) => span,
        Mark::Meets(_) => span,
    }
}

// With both ends of all pieces.
fn over_marks(span: Span, axis: usize, marks: &[PlacedMark]) -> Span
    requires axis { axis < 3 }
    ensures { result ≡ over_marks axis span marks.now }
{
    let mut span = span;
    for placed in marks {
        span = over_mark(span, axis, &placed.mark);
    }
    span
}

// A point alone.
fn of_point(axis: usize, at: Point) -> Span
    requires axis { axis < 3 }
    requires at { IsTrue (is_near at) }
    ensures { result ≡ single (coordinate at axis) }
{
    Span {
        low: at.0[axis],
        high: at.0[axis],
    }
}

// A block alone.
fn of_block(axis: usize, block: &Block3) -> Span
    requires axis { axis < 3 }
    requires block { IsTrue (is_block block.now) }
    ensures { result ≡ of_block axis block.now }
{
    over_point(of_point(axis, block.low), axis, block.high)
}

// Of home, the position at the end, the blocks and the pieces.
fn span_of_all(
    axis: usize,
    home: Point,
    position: Point,
    blocks: &[Block3],
    marks: &[PlacedMark],
) -> Span
    requires axis { axis < 3 }
    requires blocks { IsTrue (list_all is_block blocks.now) }
    ensures { result ≡ span_of_all axis home position blocks.now marks.now }
{
    let span = over_point(of_point(axis, drawn_at(home)), axis, drawn_at(position));
    over_marks(over_blocks(span, axis, blocks), axis, marks)
}

/// What a picture shows of an axis: home, the position at the end, the blocks and the pieces; of a close one the blocks alone, unless there are
/// none.
pub(crate) fn span_of(
    axis: usize,
    is_close: bool,
    home: Point,
    position: Point,
    blocks: &[Block3],
    marks: &[PlacedMark],
) -> Span
    requires axis { axis < 3 }
    requires blocks { IsTrue (list_all is_block blocks.now) }
    ensures { result ≡ span_of axis is_close home position blocks.now marks.now }
{
    match blocks.first() {
        Some(block) => if is_close {
            over_blocks(of_block(axis, block), axis, blocks)
        } else {
            span_of_all(axis, home, position, blocks, marks)
        },
        None => span_of_all(axis, home, position, blocks, marks),
    }
}
