//! The edges of a mesh, as far as they tell whether it is closed.

use std::alloc::Global;
use vcm_mesh::Triangle;
use vcm_num::{NoMemory, Point};

/// How many edges belong to an odd number of triangles, and how many others aren't gone along as often one way as the other.
#[derive(Clone, Copy)]
pub(crate) struct Edges {
    pub odd: usize,
    pub twice: usize,
}

// An edge as often as it was found so far, and how often from its second end to its first.
#[derive(Clone, Copy)]
struct Run {
    edge: u64,
    count: usize,
    back: usize,
}

// A coordinate as a number that is not negative, in 42 bits.
fn lifted(z: i64) -> u128 {
    u128::from(z.saturating_add(2_000_000_000_000).unsigned_abs())
}

// A number of its own for each corner.
fn corner_key(corner: Point) -> u128 {
    let Point([x, y, z]) = corner;
    let upper = lifted(x)
        .saturating_mul(4_398_046_511_104)
        .saturating_add(lifted(y));
    upper
        .saturating_mul(4_398_046_511_104)
        .saturating_add(lifted(z))
}

// The corners of all triangles, each once, by their numbers.
fn corner_keys(alloc: Global, triangles: &[Triangle]) -> Result<Vec<u128>, NoMemory> {
    let mut keys = Vec::new(alloc);
    for triangle in triangles {
        keys.push(corner_key(triangle.a))?;
        keys.push(corner_key(triangle.b))?;
        keys.push(corner_key(triangle.c))?;
    }
    keys.sort_unstable();
    keys.dedup();
    Ok(keys)
}

// The index of a corner.
fn index_of(keys: &[u128], corner: Point) -> u64 {
    match keys.binary_search(&corner_key(corner)) {
        Ok(index) => index as u64,
        Err(index) => index as u64,
    }
}

// Adds an edge, unless its ends are one: its lesser end, its greater one, and whether it goes from the greater to the lesser.
fn put_edge(edges: &mut Vec<u64>, from: u64, to: u64) -> Result<(), NoMemory> {
    if from < to {
        edges.push(
            from.saturating_mul(8_589_934_592)
                .saturating_add(to.saturating_mul(2)),
        )?;
    }
    if to < from {
        let back = from.saturating_mul(2).saturating_add(1);
        edges.push(to.saturating_mul(8_589_934_592).saturating_add(back))?;
    }
    Ok(())
}

// The edges of all triangles, in order.
fn edges_of(alloc: Global, triangles: &[Triangle]) -> Result<Vec<u64>, NoMemory> {
    let keys = corner_keys(alloc, triangles)?;
    let mut edges = Vec::new(alloc);
    for triangle in triangles {
        let a = index_of(&keys, triangle.a);
        let b = index_of(&keys, triangle.b);
        let c = index_of(&keys, triangle.c);
        put_edge(&mut edges, a, b)?;
        put_edge(&mut edges, b, c)?;
        put_edge(&mut edges, c, a)?;
    }
    edges.sort_unstable();
    Ok(edges)
}

// What is known with one more edge.
fn counted(edges: Edges, run: Run) -> Edges {
    if run.count % 2 == 1 {
        return Edges {
            odd: edges.odd.saturating_add(1),
            twice: edges.twice,
        };
    }
    if run.back.saturating_mul(2) != run.count {
        return Edges {
            odd: edges.odd,
            twice: edges.twice.saturating_add(1),
        };
    }
    edges
}

/// What is known of the edges of a mesh.
pub(crate) fn count_edges(alloc: Global, triangles: &[Triangle]) -> Result<Edges, NoMemory> {
    let edges = edges_of(alloc, triangles)?;
    let mut known = Edges { odd: 0, twice: 0 };
    let mut run = Run {
        edge: u64::MAX,
        count: 0,
        back: 0,
    };
    for key in &edges {
        let edge = *key / 2;
        if edge != run.edge {
            known = counted(known, run);
            run = Run {
                edge,
                count: 0,
                back: 0,
            };
        }
        run.count = run.count.saturating_add(1);
        run.back = run.back.saturating_add((*key % 2) as usize);
    }
    Ok(counted(known, run))
}
