//! Parts with many blocks: how many of them a move is compared with, and when they are cut into strips.

ghost use Rattle.std.specs.Prelude.{IsTrue};
ghost use Rattle.vcm_num.specs.Point.{is_near};

use std::alloc::Global;
use vcm_motion::{AnyPart, Point, Strips};
use vcm_part::read_part;
use vcm_test_tools::{BOUNDS, joined};

// Blocks along x: where the first begins, how far it is from one to the next, and how wide they are.
#[derive(Clone, Copy)]
struct Row {
    count: u32,
    first: i64,
    step: i64,
    width: i64,
}

// Twenty blocks side by side.
const TWENTY: Row = Row {
    count: 20,
    first: 0,
    step: 20_000,
    width: 20_000,
};

// As many blocks as there may be, with gaps.
const MANY: Row = Row {
    count: 4096,
    first: -450_000,
    step: 200,
    width: 100,
};

// Adds a block of a row, as a part file has it.
fn push_block(text: &mut String, row: &Row, block: u32) -> Option<()> {
    let left = row
        .first
        .saturating_add(row.step.saturating_mul(i64::from(block)));
    let right = left.saturating_add(row.width);
    writeln!(
        text,
        "[[block]]\nlow = [{left}, 10000, 0]\nhigh = [{right}, 30000, 20000]"
    )
    .ok()
}

// The blocks of a row, as a part file has them.
fn blocks_of(alloc: Global, row: &Row) -> Option<String> {
    let mut text = String::new(alloc);
    for block in 0..row.count {
        push_block(&mut text, row, block)?;
    }
    Some(text)
}

// How many blocks of a row are compared with a move, where it meets none.
fn compared(alloc: Global, row: &Row, from: Point, to: Point) -> Option<u32>
    requires from { IsTrue (is_near from) }
    requires to { IsTrue (is_near to) }
{
    let blocks = blocks_of(alloc, row)?;
    let file = joined(alloc, &[BOUNDS, blocks.as_str()])?;
    let part = read_part(alloc, file.as_bytes()).ok()?;
    let (hit, count) = Strips::build(alloc, &part)
        .ok()?
        .first_hit_counted(from, to);
    if hit.is_none() { Some(count) } else { None }
}

// Whether a move behind the last of twenty blocks is compared with few of them.
fn is_aside(alloc: Global) -> bool {
    let (from, to) = (
        Point([410_000, 0, 10_000]),
        Point([410_000, 20_000, 10_000]),
    );
    match compared(alloc, &TWENTY, from, to) {
        Some(count) => count <= 10,
        None => false,
    }
}

// Whether a move through a gap of many blocks is compared with 78 of them.
fn is_between(alloc: Global) -> bool {
    let (from, to) = (
        Point([-50_050, 0, 10_000]),
        Point([-50_050, 40_000, 10_000]),
    );
    compared(alloc, &MANY, from, to) == Some(78)
}

#[test]
fn blocks_far_away_are_not_compared(rt: HostRuntime) {
    assert!(rt; is_aside(rt.alloc()) && is_between(rt.alloc()));
}

// Whether so many blocks side by side are cut into strips.
fn is_cut(alloc: Global, count: u32) -> Option<bool> {
    let blocks = blocks_of(alloc, &Row { count, ..TWENTY })?;
    let file = joined(alloc, &[BOUNDS, blocks.as_str()])?;
    let part = read_part(alloc, file.as_bytes()).ok()?;
    Some(matches!(AnyPart::of(alloc, &part).ok()?, AnyPart::Many(_)))
}

// Whether only more than 16 are.
fn are_cut_from_17(alloc: Global) -> bool {
    is_cut(alloc, 1) == Some(false)
        && is_cut(alloc, 16) == Some(false)
        && is_cut(alloc, 17) == Some(true)
        && is_cut(alloc, 20) == Some(true)
}

#[test]
fn more_than_16_blocks_are_cut_into_strips(rt: HostRuntime) {
    assert!(rt; are_cut_from_17(rt.alloc()));
}
