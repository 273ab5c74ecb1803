//! Binary mesh files.

ghost use Rattle.std.specs.Prelude.{◌≡◌, ◌+◌, ◌*◌, ◌≤◌, ◌<◌, length, [], true};
ghost use Rattle.vcm_mesh.specs.Lengths.{word_at};
ghost use Rattle.vcm_mesh.specs.Meshes.{Gives, corner_at, facet_at, facets_behind, of_triangle, count_of, is_binary, binary_mesh};

use crate::fault::{MeshFault, Misread, Refusal};
use crate::length::float_of;
use crate::mesh::MOST_TRIANGLES;
use crate::placing::{Placing, placed};
use crate::triangle::Triangle;
use std::alloc::Global;
use vcm_num::Point;

// The number of the four bytes from a place on, the lowest byte first.
fn word_at(bytes: &[u8], at: usize) -> u32
    requires { at + 4 ≤ length bytes.now }
    ensures { result ≡ word_at bytes.now at }
{
    u32::from(bytes[at])
        + 256 * u32::from(bytes[at + 1])
        + 65_536 * u32::from(bytes[at + 2])
        + 16_777_216 * u32::from(bytes[at + 3])
}

// The corner whose three numbers begin at a place.
#[tactic(auto, unfolding(crate::specs::Meshes::corner_at))]
fn corner_at(placing: &Placing, bytes: &[u8], at: usize) -> Result<Point, Misread>
    requires { at + 12 ≤ length bytes.now }
    ensures { result ≡ corner_at placing.now bytes.now at }
{
    let scale = placing.unit.scale();
    let x = float_of(scale, word_at(bytes, at))?;
    let y = float_of(scale, word_at(bytes, at + 4))?;
    let z = float_of(scale, word_at(bytes, at + 8))?;
    placed(placing, Point::new(x, y, z))
}

// The triangle whose bytes begin at a place.
#[tactic(auto, unfolding(crate::specs::Meshes::facet_at))]
fn facet_at(placing: &Placing, bytes: &[u8], at: usize) -> Result<Triangle, Misread>
    requires { at + 50 ≤ length bytes.now }
    ensures { result ≡ facet_at placing.now bytes.now at }
{
    let a = corner_at(placing, bytes, at + 12)?;
    let b = corner_at(placing, bytes, at + 24)?;
    let c = corner_at(placing, bytes, at + 36)?;
    Ok(Triangle { a, b, c })
}

/// What was read of a triangle, or what is told of it.
pub(crate) fn of_triangle<T>(number: u32, read: Result<T, Misread>) -> Result<T, Refusal>
    ensures { result ≡ of_triangle number read }
{
    match read {
        Ok(value) => Ok(value),
        Err(Misread::NotANumber) => Err(Refusal::NoNumber(number)),
        Err(Misread::TooFar) => Err(Refusal::OutOfRange(number)),
    }
}

// The triangles of a file of so many.
fn facets(
    alloc: Global,
    placing: &Placing,
    bytes: &[u8],
    count: u32,
) -> Result<Vec<Triangle>, MeshFault>
    requires long { 84 + 50 * count ≤ length bytes.now }
    requires few { count ≤ 1000000 }
    ensures { Gives (λ ts. ts.items) result (facets_behind placing.now bytes.now [] count 1) }
{
    let mut triangles = Vec::with_capacity(alloc, count as usize)?;
    for index in 0..count {
        let at = 84 + 50 * index as usize;
        match of_triangle(index + 1, facet_at(placing, bytes, at)) {
            Ok(triangle) => triangles.push(triangle)?,
            Err(refusal) => return Err(MeshFault::Refused(refusal)),
        }
    }
    Ok(triangles)
}

/// How many triangles a binary file says it has.
pub(crate) fn count_of(bytes: &[u8]) -> u32
    requires { 84 ≤ length bytes.now }
    ensures { result ≡ count_of bytes.now }
{
    word_at(bytes, 80)
}

/// Whether it is as long as it says.
pub(crate) fn is_binary(bytes: &[u8]) -> bool
    ensures { result ≡ is_binary bytes.now }
{
    bytes.len() >= 84 && bytes.len() == 84 + 50 * count_of(bytes) as usize
}

/// The triangles of a binary file.
pub(crate) fn binary_mesh(
    alloc: Global,
    placing: &Placing,
    bytes: &[u8],
) -> Result<Vec<Triangle>, MeshFault>
    requires { is_binary bytes.now ≡ true }
    ensures { Gives (λ ts. ts.items) result (binary_mesh placing.now bytes.now) }
{
    let count = count_of(bytes);
    if count == 0 {
        return Err(MeshFault::Refused(Refusal::NoTriangles));
    }
    if count > MOST_TRIANGLES {
        return Err(MeshFault::Refused(Refusal::TooManyTriangles));
    }
    facets(alloc, placing, bytes, count)
}
