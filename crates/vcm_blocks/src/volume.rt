//! Volumes in cubic micrometres, as they are told.

use std::alloc::Global;
use vcm_mesh::Triangle;
use vcm_num::{NoMemory, Point};
use vcm_spec::Block3;

// The way from one point to another.
fn between(from: Point, to: Point) -> [i128; 3] {
    let Point([a, b, c]) = from;
    let Point([x, y, z]) = to;
    [
        i128::from(x) - i128::from(a),
        i128::from(y) - i128::from(b),
        i128::from(z) - i128::from(c),
    ]
}

// The product of two ways that is square to both.
fn cross(first: [i128; 3], second: [i128; 3]) -> [i128; 3] {
    let [a, b, c] = first;
    let [x, y, z] = second;
    [
        b.saturating_mul(z).saturating_sub(c.saturating_mul(y)),
        c.saturating_mul(x).saturating_sub(a.saturating_mul(z)),
        a.saturating_mul(y).saturating_sub(b.saturating_mul(x)),
    ]
}

/// Whether a triangle has no area.
pub(crate) fn is_flat(triangle: &Triangle) -> bool {
    let [x, y, z] = cross(
        between(triangle.a, triangle.b),
        between(triangle.a, triangle.c),
    );
    x == 0 && y == 0 && z == 0
}

// Six times the volume between a triangle and a point, negative where it is seen from inside.
fn six_times(triangle: &Triangle, from: Point) -> i128 {
    let [a, b, c] = between(from, triangle.a);
    let [x, y, z] = cross(between(from, triangle.b), between(from, triangle.c));
    a.saturating_mul(x)
        .saturating_add(b.saturating_mul(y))
        .saturating_add(c.saturating_mul(z))
}

/// Six times the volume that triangles enclose, negative where they turn inward.
pub(crate) fn six_volumes(triangles: &[Triangle]) -> i128 {
    let Some((first, _)) = triangles.split_first() else {
        return 0;
    };
    let from = first.a;
    let mut sum: i128 = 0;
    for triangle in triangles {
        sum = sum.saturating_add(six_times(triangle, from));
    }
    sum
}

// An axis of a sweep.
#[derive(Clone, Copy)]
enum Along {
    X,
    Y,
    Z,
}

// Where a block begins and ends on an axis.
fn span(block: &Block3, along: Along) -> (i64, i64) {
    let Point([a, b, c]) = block.low;
    let Point([x, y, z]) = block.high;
    match along {
        Along::X => (a, x),
        Along::Y => (b, y),
        Along::Z => (c, z),
    }
}

// Where blocks begin and end on an axis, in order.
fn stops(alloc: Global, blocks: &[Block3], along: Along) -> Result<Vec<i64>, NoMemory> {
    let mut stops = Vec::new(alloc);
    for block in blocks {
        let (from, to) = span(block, along);
        stops.push(from)?;
        stops.push(to)?;
    }
    stops.sort_unstable();
    stops.dedup();
    Ok(stops)
}

// Whether a block reaches over a stretch of an axis.
fn reaches_over(block: &Block3, along: Along, from: i64, to: i64) -> bool {
    let (low, high) = span(block, along);
    low <= from && to <= high
}

// Those of the blocks that reach over a stretch.
fn over(
    alloc: Global,
    blocks: &[Block3],
    along: Along,
    from: i64,
    to: i64,
) -> Result<Vec<Block3>, NoMemory> {
    let mut found = Vec::new(alloc);
    for block in blocks {
        if reaches_over(block, along, from, to) {
            found.push(*block)?;
        }
    }
    Ok(found)
}

// How long a stretch is.
fn length(from: i64, to: i64) -> u128 {
    u128::from(to.saturating_sub(from).unsigned_abs())
}

// How much of the last axis the blocks over a stretch of the second one fill; they come in the order in which they begin there.
fn filled(blocks: &[Block3], from: i64, to: i64) -> u128 {
    let mut sum: u128 = 0;
    let mut done = i64::MIN;
    for block in blocks {
        let (low, high) = span(block, Along::Z);
        if reaches_over(block, Along::Y, from, to) && done < high {
            sum = sum.saturating_add(length(low.max(done), high));
            done = high;
        }
    }
    sum
}

// The area that blocks fill of the second and the last axis.
fn area(alloc: Global, blocks: &[Block3]) -> Result<u128, NoMemory> {
    let mut sum: u128 = 0;
    let mut from = i64::MIN;
    for stop in stops(alloc, blocks, Along::Y)? {
        sum = sum.saturating_add(length(from, stop).saturating_mul(filled(blocks, from, stop)));
        from = stop;
    }
    Ok(sum)
}

/// The volume of all blocks together.
pub(crate) fn block_volume(alloc: Global, blocks: &[Block3]) -> Result<u128, NoMemory> {
    let mut ordered = Vec::new(alloc);
    ordered.extend_from_slice(blocks)?;
    ordered.sort_unstable_by_key(|block| span(block, Along::Z).0);
    let mut sum: u128 = 0;
    let mut from = i64::MIN;
    for stop in stops(alloc, blocks, Along::X)? {
        let slab = over(alloc, &ordered, Along::X, from, stop)?;
        sum = sum.saturating_add(length(from, stop).saturating_mul(area(alloc, &slab)?));
        from = stop;
    }
    Ok(sum)
}
