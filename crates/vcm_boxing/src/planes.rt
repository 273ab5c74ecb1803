//! Where the planes of a grid lie: at faces square to an axis, and in even steps where triangles lean.

use crate::facet::Facet;
use crate::fault::CoverFault;
use crate::grid::{divided, first_from, number_at};
use crate::parting::normal;
use std::alloc::Global;
use vcm_num::{Axis, Point};

/// A point that is measured, in micrometres of machine coordinates, and the direction from the surface outward: the grid is finer there.
#[derive(Clone, Copy)]
pub struct NearPoint {
    pub at: Point,
    pub toward: Axis,
}

/// How planes are laid.
#[derive(Clone, Copy)]
pub struct Laying<'a> {
    /// The greatest even step, in micrometres, 1 at least.
    pub step: u32,
    /// Whether faces that are square to an axis have planes of their own, at most so many on each axis.
    pub aligned: Option<usize>,
    /// The points near which planes are closer.
    pub near: &'a [NearPoint],
    /// Half the width of the tip.
    pub half: u32,
}

// A stretch of an axis.
#[derive(Clone, Copy, PartialEq, Eq, PartialOrd, Ord)]
struct Span {
    low: i32,
    high: i32,
}

// A face's coordinate, behind its size.
#[derive(Clone, Copy, PartialEq, Eq, PartialOrd, Ord)]
struct Face {
    size: u64,
    at: i32,
}

// An edge, the lesser corner first, and the third corner of a triangle on it.
#[derive(Clone, Copy, PartialEq, Eq, PartialOrd, Ord)]
struct Edge {
    from: [i32; 3],
    to: [i32; 3],
    third: [i32; 3],
}

// The coordinates of a facet's corners on an axis.
fn on_axis(facet: &Facet, axis: usize) -> [i32; 3] {
    if axis < 3 {
        [facet.a[axis], facet.b[axis], facet.c[axis]]
    } else {
        [0, 0, 0]
    }
}

fn span_of(facet: &Facet, axis: usize) -> Span {
    let [a, b, c] = on_axis(facet, axis);
    Span {
        low: a.min(b).min(c),
        high: a.max(b).max(c),
    }
}

// The normal's number on an axis.
fn slope(facet: &Facet, axis: usize) -> i64 {
    let n = normal(facet);
    if axis < 3 { n[axis] } else { 0 }
}

// Whether a triangle has no area.
fn is_empty(facet: &Facet) -> bool {
    let [x, y, z] = normal(facet);
    x == 0 && y == 0 && z == 0
}

// The corners' coordinates on an axis, ascending, each once.
fn corners_on(alloc: Global, facets: &[Facet], axis: usize) -> Result<Vec<i32>, CoverFault> {
    let mut all = Vec::new(alloc);
    for facet in facets {
        let [a, b, c] = on_axis(facet, axis);
        all.push(a)?;
        all.push(b)?;
        all.push(c)?;
    }
    all.sort_unstable();
    all.dedup();
    Ok(all)
}

// The sizes of faces square to an axis, each coordinate once.
fn faces_on(alloc: Global, facets: &[Facet], axis: usize) -> Result<Vec<Face>, CoverFault> {
    let mut spans = Vec::new(alloc);
    for facet in facets {
        let span = span_of(facet, axis);
        if span.low == span.high {
            spans.push(Placed {
                at: span.low,
                size: slope(facet, axis).unsigned_abs(),
            })?;
        }
    }
    spans.sort_unstable();
    let mut faces = Vec::new(alloc);
    let mut last = Placed { at: 0, size: 0 };
    let mut any = false;
    for placed in spans.as_slice() {
        if any && placed.at == last.at {
            last.size = last.size.saturating_add(placed.size);
        } else {
            if any {
                faces.push(Face {
                    size: last.size,
                    at: last.at,
                })?;
            }
            last = *placed;
            any = true;
        }
    }
    if any {
        faces.push(Face {
            size: last.size,
            at: last.at,
        })?;
    }
    Ok(faces)
}

// A face's size, behind its coordinate.
#[derive(Clone, Copy, PartialEq, Eq, PartialOrd, Ord)]
struct Placed {
    at: i32,
    size: u64,
}

// The coordinates of the largest faces square to an axis.
fn large_faces(
    alloc: Global,
    facets: &[Facet],
    axis: usize,
    most: usize,
) -> Result<Vec<i32>, CoverFault> {
    let mut faces = faces_on(alloc, facets, axis)?;
    if faces.len() > most {
        faces.sort_unstable();
        faces.reverse();
        faces.truncate(most);
    }
    let mut all = Vec::new(alloc);
    for face in faces.as_slice() {
        all.push(face.at)?;
    }
    Ok(all)
}

// Whether a corner comes before another one.
fn is_less(p: &[i32; 3], q: &[i32; 3]) -> bool {
    if p[0] != q[0] {
        return p[0] < q[0];
    }
    if p[1] != q[1] {
        return p[1] < q[1];
    }
    p[2] < q[2]
}

// The edge between two corners.
fn edge_between(p: [i32; 3], q: [i32; 3], third: [i32; 3]) -> Edge {
    if is_less(&p, &q) {
        Edge {
            from: p,
            to: q,
            third,
        }
    } else {
        Edge {
            from: q,
            to: p,
            third,
        }
    }
}

// Whether an edge slides along an axis: it is neither along it nor square to it.
fn slides(edge: &Edge, axis: usize) -> bool {
    let [p, q, r] = edge.from;
    let [u, v, w] = edge.to;
    let x = p != u;
    let y = q != v;
    let z = r != w;
    match axis {
        0 => x && (y || z),
        1 => y && (x || z),
        _ => z && (x || y),
    }
}

// The edges that slide along an axis, of the triangles that lie along it.
fn sliding_on(alloc: Global, facets: &[Facet], axis: usize) -> Result<Vec<Edge>, CoverFault> {
    let mut all = Vec::new(alloc);
    for facet in facets {
        let span = span_of(facet, axis);
        if span.low == span.high || slope(facet, axis) != 0 {
            continue;
        }
        let ab = edge_between(facet.a, facet.b, facet.c);
        let bc = edge_between(facet.b, facet.c, facet.a);
        let ca = edge_between(facet.c, facet.a, facet.b);
        if slides(&ab, axis) {
            all.push(ab)?;
        }
        if slides(&bc, axis) {
            all.push(bc)?;
        }
        if slides(&ca, axis) {
            all.push(ca)?;
        }
    }
    all.sort_unstable();
    Ok(all)
}

// A number of the product of two ways.
fn crossed(a: i64, b: i64, c: i64, d: i64) -> i128 {
    i128::from(a)
        .wrapping_mul(i128::from(b))
        .wrapping_sub(i128::from(c).wrapping_mul(i128::from(d)))
}

// Whether two normals are opposite.
fn are_opposite(a: &[i64; 3], b: &[i64; 3]) -> bool {
    if crossed(a[1], b[2], a[2], b[1]) != 0
        || crossed(a[2], b[0], a[0], b[2]) != 0
        || crossed(a[0], b[1], a[1], b[0]) != 0
    {
        return false;
    }
    is_against(a[0], b[0]) || is_against(a[1], b[1]) || is_against(a[2], b[2])
}

// Whether two numbers have different signs.
fn is_against(a: i64, b: i64) -> bool {
    a < 0 && 0 < b || 0 < a && b < 0
}

// The normal of the triangle on an edge with a third corner.
fn normal_on(edge: &Edge, third: &[i32; 3]) -> [i64; 3] {
    let a = edge.from;
    let b = edge.to;
    let c = *third;
    normal(&Facet { a, b, c })
}

// Whether a triangle on an edge goes on in another one, in the same plane on the other side.
fn goes_on(one: &Edge, other: &Edge) -> bool {
    let a = normal_on(one, &one.third);
    let b = normal_on(one, &other.third);
    are_opposite(&a, &b)
}

// Whether two edges are the same.
fn is_same(one: &Edge, other: &Edge) -> bool {
    !is_less(&one.from, &other.from)
        && !is_less(&other.from, &one.from)
        && !is_less(&one.to, &other.to)
        && !is_less(&other.to, &one.to)
}

// How many edges from a place on are the same.
fn run_at(edges: &[Edge], from: usize) -> usize {
    let mut count = 0;
    if from < edges.len() {
        for index in from..edges.len() {
            if !is_same(&edges[from], &edges[index]) {
                break;
            }
            count = index.wrapping_sub(from).wrapping_add(1);
        }
    }
    count
}

// The stretch of an edge on an axis.
fn span_along(edge: &Edge, axis: usize) -> Span {
    let a = edge.from;
    let b = edge.to;
    let c = edge.to;
    span_of(&Facet { a, b, c }, axis)
}

// Adds the stretches of those edges that slide and don't go on in just one other triangle.
fn add_sliding(spans: &mut Vec<Span>, edges: &[Edge], axis: usize) -> Result<(), CoverFault> {
    let mut skip = 0;
    for index in 0..edges.len() {
        if skip > 0 {
            skip -= 1;
            continue;
        }
        let run = run_at(edges, index);
        skip = run.saturating_sub(1);
        let is_fine = run == 2
            && index + 1 < edges.len()
            && goes_on(&edges[index], &edges[index + 1]);
        if !is_fine {
            spans.push(span_along(&edges[index], axis))?;
        }
    }
    Ok(())
}

// The stretches of an axis over which a triangle leans, ascending and apart.
fn leaning_on(
    alloc: Global,
    facets: &[Facet],
    axis: usize,
    is_aligned: bool,
) -> Result<Vec<Span>, CoverFault> {
    let mut spans = Vec::new(alloc);
    for facet in facets {
        let span = span_of(facet, axis);
        if span.low < span.high && (!is_aligned || slope(facet, axis) != 0 || is_empty(facet)) {
            spans.push(span)?;
        }
    }
    if is_aligned {
        let edges = sliding_on(alloc, facets, axis)?;
        add_sliding(&mut spans, edges.as_slice(), axis)?;
    }
    spans.sort_unstable();
    joined(alloc, spans.as_slice())
}

// Ascending stretches, those that touch made one.
fn joined(alloc: Global, spans: &[Span]) -> Result<Vec<Span>, CoverFault> {
    let mut all = Vec::new(alloc);
    let mut last = Span { low: 0, high: 0 };
    let mut any = false;
    for span in spans {
        if any && span.low <= last.high {
            last.high = last.high.max(span.high);
        } else {
            if any {
                all.push(last)?;
            }
            last = *span;
            any = true;
        }
    }
    if any {
        all.push(last)?;
    }
    Ok(all)
}

// Adds a plane, if it is a small number.
fn add_plane(planes: &mut Vec<i32>, at: i64) -> Result<(), CoverFault> {
    if let Ok(at) = i32::try_from(at) {
        planes.push(at)?;
    }
    Ok(())
}

// Adds the planes at a measured point: at the point and closer and closer to it along its direction, and at both sides of the tip across.
fn add_near(
    planes: &mut Vec<i32>,
    point: &NearPoint,
    axis: usize,
    laying: &Laying<'_>,
) -> Result<(), CoverFault> {
    let Point([x, y, z]) = point.at;
    let at = match axis {
        0 => x,
        1 => y,
        _ => z,
    };
    if point.toward.index() == axis {
        add_plane(planes, at)?;
        let mut off = 20i64;
        for _ in 0..40 {
            if off >= i64::from(laying.step) {
                break;
            }
            add_plane(planes, at.saturating_sub(off))?;
            add_plane(planes, at.saturating_add(off))?;
            off = off.saturating_mul(2);
        }
    } else {
        let off = i64::from(laying.half) + 100;
        add_plane(planes, at.saturating_sub(off))?;
        add_plane(planes, at.saturating_add(off))?;
    }
    Ok(())
}

// The planes that stand whatever the step is, ascending, each once.
fn fixed_on(
    alloc: Global,
    facets: &[Facet],
    axis: usize,
    laying: &Laying<'_>,
    leaning: &[Span],
    ends: Span,
) -> Result<Vec<i32>, CoverFault> {
    let mut all = large_faces(alloc, facets, axis, laying.aligned.unwrap_or(0))?;
    for span in leaning {
        all.push(span.low)?;
        all.push(span.high)?;
    }
    for point in laying.near {
        add_near(&mut all, point, axis, laying)?;
    }
    let mut fixed = Vec::new(alloc);
    fixed.push(ends.low)?;
    fixed.push(ends.high)?;
    for at in all.as_slice() {
        if ends.low < *at && *at < ends.high {
            fixed.push(*at)?;
        }
    }
    fixed.sort_unstable();
    fixed.dedup();
    Ok(fixed)
}

// Whether a triangle leans between two coordinates.
fn leans_between(leaning: &[Span], low: i32, high: i32) -> bool {
    let mut first = 0;
    let mut end = leaning.len();
    for _ in 0..64 {
        if first >= end {
            break;
        }
        let middle = first + (end - first) / 2;
        if middle < leaning.len() && leaning[middle].high <= low {
            first = middle + 1;
        } else {
            end = middle;
        }
    }
    first < leaning.len() && leaning[first].low < high
}

// Adds the planes after one up to another: at corners, if they are fewer than even steps and nothing leans there, else in even steps.
fn add_between(
    planes: &mut Vec<i32>,
    corners: &[i32],
    low: i32,
    high: i32,
    leans: bool,
    step: u32,
) -> Result<(), CoverFault> {
    let gap = i64::from(high).wrapping_sub(i64::from(low));
    let parts = divided(
        gap.wrapping_add(i64::from(step)).wrapping_sub(1),
        i64::from(step),
    );
    let first = first_from(corners, low.saturating_add(1));
    let end = first_from(corners, high);
    if !leans && (end.saturating_sub(first) as u64) < parts.unsigned_abs() {
        for index in first..end {
            planes.push(number_at(corners, index))?;
        }
        planes.push(high)?;
        return Ok(());
    }
    for part in 1..parts {
        let off = divided(gap.wrapping_mul(part), parts);
        add_plane(planes, i64::from(low).wrapping_add(off))?;
    }
    planes.push(high)?;
    Ok(())
}

// The most planes on an axis.
const MOST_PLANES: usize = 20_000_000;

/// The planes on an axis, ascending, each once: the first and the last are the model's ends.
pub fn planes_on(
    alloc: Global,
    facets: &[Facet],
    axis: usize,
    laying: &Laying<'_>,
) -> Result<Vec<i32>, CoverFault> {
    let corners = corners_on(alloc, facets, axis)?;
    let ends = Span {
        low: number_at(corners.as_slice(), 0),
        high: number_at(corners.as_slice(), corners.len().saturating_sub(1)),
    };
    let leaning = leaning_on(alloc, facets, axis, laying.aligned.is_some())?;
    let fixed = fixed_on(alloc, facets, axis, laying, leaning.as_slice(), ends)?;
    let mut planes = Vec::new(alloc);
    planes.push(ends.low)?;
    for index in 1..fixed.len() {
        let low = number_at(fixed.as_slice(), index.wrapping_sub(1));
        let high = number_at(fixed.as_slice(), index);
        let leans = leans_between(leaning.as_slice(), low, high);
        add_between(
            &mut planes,
            corners.as_slice(),
            low,
            high,
            leans,
            laying.step,
        )?;
        if planes.len() > MOST_PLANES {
            return Err(CoverFault::TooFine);
        }
    }
    planes.dedup();
    Ok(planes)
}
