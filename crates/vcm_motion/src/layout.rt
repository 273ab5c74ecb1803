//! Strips of the x axis, and the blocks that stand in them.

ghost use Rattle.std.specs.Prelude.{◌≡◌, ◌<◌, ◌≤◌, ◌++◌, IfOk, OnOk, length, map, IsTrue};
ghost use Rattle.std.specs.List.{list_all};
ghost use Rattle.vcm_num.specs.Point.{IsNear};
ghost use Rattle.vcm_motion.specs.inner.Boxes.{IsWide};
ghost use Rattle.vcm_spec.specs.Workpiece.{is_block};
ghost use Rattle.vcm_motion.specs.Strips.{rise, strip_at, first_strip, last_strip};
ghost use Rattle.vcm_motion.specs.inner.Spans.{span_at, has_strip, having};

use std::alloc::{AllocError, Global};
use vcm_spec::Block3;

/// How many strips there are.
pub(crate) const STRIPS: usize = 64;

/// How far an x coordinate lies above `low`, or 0.
pub(crate) fn rise(low: i64, x: i64) -> u32
    requires low { IsNear low }
    requires x { IsWide x }
    ensures { result ≡ rise low x }
{
    if x < low { 0 } else { (x - low) as u32 }
}

/// The strip of an x coordinate: the outer two are unbounded, and an edge between two strips belongs to the upper.
pub(crate) fn strip_of(low: i64, width: u32, x: i64) -> usize
    requires low { IsNear low }
    requires x { IsWide x }
    requires width { 0 < width }
    ensures { result ≡ strip_at low width x }
{
    ((rise(low, x) / width) as usize).min(STRIPS - 1)
}

/// The first strip that the tip reaches on a move between two x coordinates.
#[inline(always)]
pub(crate) fn first_strip(low: i64, width: u32, tip: u32, from: i64, to: i64) -> usize
    requires low { IsNear low }
    requires width { 0 < width }
    requires tip { tip ≤ 50000 }
    requires from { IsNear from }
    requires to { IsNear to }
    ensures { result ≡ first_strip low width tip from to }
{
    strip_of(low, width, from.min(to) - i64::from(tip))
}

/// The last strip that it reaches.
#[inline(always)]
pub(crate) fn last_strip(low: i64, width: u32, tip: u32, from: i64, to: i64) -> usize
    requires low { IsNear low }
    requires width { 0 < width }
    requires tip { tip ≤ 50000 }
    requires from { IsNear from }
    requires to { IsNear to }
    ensures { result ≡ last_strip low width tip from to }
{
    strip_of(low, width, from.max(to) + i64::from(tip))
}

/// The first and the last strip that a block stands in.
#[derive(Clone, Copy)]
pub(crate) struct Span {
    first: u8,
    last: u8,
}

// The strips of a block.
fn span_of(block: &Block3, low: i64, width: u32) -> Span
    requires block { IsTrue (is_block block.now) }
    requires low { IsNear low }
    requires width { 0 < width }
    ensures { result ≡ span_at low width block.now }
{
    let first = strip_of(low, width, block.low.0[0]);
    let last = strip_of(low, width, block.high.0[0]);
    Span {
        first: first as u8,
        last: last as u8,
    }
}

/// The strips of each block.
pub(crate) fn spans_of(
    alloc: Global,
    blocks: &[Block3],
    low: i64,
    width: u32,
) -> Result<Vec<Span>, AllocError>
    requires blocks { IsTrue (list_all is_block blocks.now) }
    requires low { IsNear low }
    requires width { 0 < width }
    ensures { IfOk result (λ spans. spans.items ≡ map (span_at low width) blocks.now) }
{
    let mut spans = Vec::with_capacity(alloc, blocks.len())?;
    for block in blocks {
        spans.push(span_of(block, low, width))?;
    }
    Ok(spans)
}

// Whether a strip is one of them.
fn has_strip(span: Span, strip: usize) -> bool
    ensures { result ≡ has_strip strip span }
{
    usize::from(span.first) <= strip && strip <= usize::from(span.last)
}

/// Adds the numbers of the blocks that stand in a strip.
pub(crate) fn fill(order: &mut Vec<u32>, spans: &[Span], strip: usize) -> Result<(), AllocError>
    requires { length spans.now ≤ 4096 }
    ensures { OnOk result (order.new.items ≡ order.old.items ++ having strip 0 spans.now) }
{
    for (index, span) in spans.iter().enumerate() {
        if has_strip(*span, strip) {
            order.push(index as u32)?;
        }
    }
    Ok(())
}
