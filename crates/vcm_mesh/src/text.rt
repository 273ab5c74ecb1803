//! Mesh files that are texts, line by line.

ghost use Rattle.std.specs.Prelude.{◌≡◌, ◌≤◌, ◌<◌, ◌+◌, ◌∷◌, ◌++◌, [], length, Some};
ghost use Rattle.std.specs.Str.Lines.{lines};
ghost use Rattle.vcm_mesh.specs.Meshes.{Gives, corner_of, vertex_of, next_place, added, read_known, read_line, read_end, text_mesh};
ghost use Rattle.vcm_mesh.specs.inner.Reads.{TookTriangle, TookLine, read_so_far};

use crate::binary::of_triangle;
use crate::fault::{MeshFault, Misread, Refusal};
use crate::mesh::{MOST_BYTES, MOST_TRIANGLES};
use crate::number::decimal_of;
use crate::placing::{Placing, placed};
use crate::triangle::Triangle;
use crate::words::{keyword_of, split_word, three_words};
use std::alloc::Global;
use vcm_num::{Point, split_line};

/// A word that begins a line.
#[derive(Clone, Copy, PartialEq, Eq)]
pub enum Keyword {
    Solid,
    EndSolid,
    Facet,
    Outer,
    Vertex,
    EndLoop,
    EndFacet,
}

/// Where a text is after a line.
#[derive(Clone, Copy)]
pub enum Place {
    /// Outside of solids.
    Outside,
    /// In a solid, outside of facets.
    InSolid,
    /// In a facet, before its loop.
    InFacet,
    /// In a loop without corners so far.
    InLoop,
    /// In a loop with one corner.
    OneCorner(Point),
    /// In a loop with two.
    TwoCorners(Point, Point),
    /// In a loop with three.
    ThreeCorners(Triangle),
    /// Behind the loop.
    LoopDone(Triangle),
}

// The corner of three words.
fn corner_of(placing: &Placing, words: (&[u8], &[u8], &[u8])) -> Result<Point, Misread>
    ensures { result ≡ corner_of placing.now words.entry.0.now words.entry.1.now words.entry.2.now }
{
    let (first, second, third) = words;
    let scale = placing.unit.scale();
    let x = decimal_of(scale, first)?;
    let y = decimal_of(scale, second)?;
    let z = decimal_of(scale, third)?;
    placed(placing, Point::new(x, y, z))
}

// The corner that a line has after its first word.
fn vertex_of(placing: &Placing, line: u32, number: u32, text: &[u8]) -> Result<Point, Refusal>
    ensures { result ≡ vertex_of placing.now line number text.now }
{
    match three_words(text) {
        Some(words) => of_triangle(number, corner_of(placing, words)),
        None => Err(Refusal::BadText(line)),
    }
}

// Where a text is after a line that begins with a keyword.
#[tactic(auto, unfolding(crate::specs::Meshes::next_place))]
fn next_place(
    placing: &Placing,
    line: u32,
    number: u32,
    place: Place,
    keyword: Keyword,
    rest: &[u8],
) -> Result<Place, Refusal>
    ensures { result ≡ next_place placing.now line number place keyword rest.now }
{
    match (place, keyword) {
        (Place::Outside, Keyword::Solid) => Ok(Place::InSolid),
        (Place::InSolid, Keyword::EndSolid) => Ok(Place::Outside),
        (Place::InSolid, Keyword::Facet) => Ok(Place::InFacet),
        (Place::InFacet, Keyword::Outer) => Ok(Place::InLoop),
        (Place::InLoop, Keyword::Vertex) => {
            let a = vertex_of(placing, line, number, rest)?;
            Ok(Place::OneCorner(a))
        }
        (Place::OneCorner(a), Keyword::Vertex) => {
            let b = vertex_of(placing, line, number, rest)?;
            Ok(Place::TwoCorners(a, b))
        }
        (Place::TwoCorners(a, b), Keyword::Vertex) => {
            let c = vertex_of(placing, line, number, rest)?;
            Ok(Place::ThreeCorners(Triangle { a, b, c }))
        }
        (Place::ThreeCorners(triangle), Keyword::EndLoop) => Ok(Place::LoopDone(triangle)),
        (Place::LoopDone(_), Keyword::EndFacet) => Ok(Place::InSolid),
        _ => Err(Refusal::BadText(line)),
    }
}

// Adds the triangle of a facet where it ends, if there is room for it.
fn add(place: Place, keyword: Keyword, triangles: &mut Vec<Triangle>) -> Result<(), MeshFault>
    requires { length triangles.old.items ≤ 1000000 }
    ensures took { TookTriangle (triangles.old.items ++ added place keyword) result triangles.new.items }
    ensures few { length triangles.new.items ≤ 1000000 }
{
    match (place, keyword) {
        (Place::LoopDone(triangle), Keyword::EndFacet) => {
            if triangles.len() >= MOST_TRIANGLES as usize {
                return Err(MeshFault::Refused(Refusal::TooManyTriangles));
            }
            triangles.push(triangle)?;
            Ok(())
        }
        _ => Ok(()),
    }
}

// Reads a line that begins with a keyword.
fn read_known(
    placing: &Placing,
    line: u32,
    place: Place,
    keyword: Keyword,
    rest: &[u8],
    triangles: &mut Vec<Triangle>,
) -> Result<Place, MeshFault>
    requires { length triangles.old.items ≤ 1000000 }
    ensures few { length triangles.new.items ≤ 1000000 }
    ensures took { TookLine (read_known placing.now line (read_so_far triangles.old.items place) (Some keyword) rest.now) result triangles.new.items }
{
    let number = triangles.len() as u32 + 1;
    match next_place(placing, line, number, place, keyword, rest) {
        Ok(next) => {
            add(place, keyword, triangles)?;
            Ok(next)
        }
        Err(refusal) => Err(MeshFault::Refused(refusal)),
    }
}

// Reads a line.
#[tactic(auto, unfolding(crate::specs::Meshes::read_line))]
fn read_line(
    placing: &Placing,
    line: u32,
    place: Place,
    text: &[u8],
    triangles: &mut Vec<Triangle>,
) -> Result<Place, MeshFault>
    requires { length triangles.old.items ≤ 1000000 }
    ensures few { length triangles.new.items ≤ 1000000 }
    ensures took { TookLine (read_line placing.now line (read_so_far triangles.old.items place) text.now) result triangles.new.items }
{
    let (word, rest) = split_word(text);
    if word.is_empty() {
        return Ok(place);
    }
    match keyword_of(word) {
        Some(keyword) => read_known(placing, line, place, keyword, rest, triangles),
        None => Err(MeshFault::Refused(Refusal::BadText(line))),
    }
}

// What was read at the end, where a text has to stand outside of solids.
fn read_end(line: u32, triangles: Vec<Triangle>, place: Place) -> Result<Vec<Triangle>, MeshFault>
    ensures { Gives (λ ts. ts.items) result (read_end line triangles.items place) }
{
    match place {
        Place::Outside => {
            if triangles.is_empty() {
                return Err(MeshFault::Refused(Refusal::NoTriangles));
            }
            Ok(triangles)
        }
        _ => Err(MeshFault::Refused(Refusal::BadText(line))),
    }
}

/// The triangles of a text.
pub(crate) fn text_mesh(
    alloc: Global,
    placing: &Placing,
    bytes: &[u8],
) -> Result<Vec<Triangle>, MeshFault>
    ensures { Gives (λ ts. ts.items) result (text_mesh placing.now bytes.now) }
{
    if bytes.len() > MOST_BYTES {
        return Err(MeshFault::Refused(Refusal::TooLong));
    }
    let mut triangles = Vec::new(alloc);
    let mut place = Place::Outside;
    let mut line = 1;
    let mut rest = bytes;
    while !rest.is_empty() {
        let (text, behind) = split_line(rest);
        place = read_line(placing, line, place, text, &mut triangles)?;
        rest = behind;
        line += 1;
    }
    read_end(line, triangles, place)
}
