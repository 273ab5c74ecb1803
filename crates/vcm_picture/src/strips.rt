//! Which blocks of a view stand before which. A view is cut into strips, so that a block is compared only with those that reach into its strip, and
//! not with each other one.

ghost use Rattle.std.specs.Prelude.{◌≡◌, ◌++◌, ◌∷◌, [], pos, ◌≤ℤ◌, filter, OnOk, IfOk};
ghost use Rattle.std.specs.List.{AllByRecursion};
ghost use Rattle.vcm_picture.specs.Shown.{is_nearer, stands_before, rect_before, rects_before, shown_of, seen_of, all_seen};
ghost use Rattle.vcm_picture.specs.inner.Strips.{reaches, IsStrip};

use crate::shown::{Face, Seen, shown_of};
use std::alloc::Global;
use vcm_num::NoMemory;
use vcm_svg::{Length, Rect, Unit, meets, quotient};

/// How many strips a view has.
const STRIPS: usize = 32;

/// Many are more than this part of all.
const MANY: usize = 8;

/// A strip of a view, wide enough for the blocks that begin there, and the blocks that reach into it, unless these are many.
#[derive(Drop)]
pub struct Strip {
    pub left: i64,
    pub right: i64,
    pub faces: Option<Vec<Face>>,
}

// Whether a block is nearer than another one.
fn is_nearer(other: &Face, face: &Face) -> bool
    ensures { result ≡ is_nearer other.now face.now }
{
    face.near < other.near || (face.near == other.near && other.number < face.number)
}

// Whether it stands before the other one.
fn stands_before(other: &Face, face: &Face) -> bool
    ensures { result ≡ stands_before other.now face.now }
{
    is_nearer(other, face) && meets(other.rect.rect(), face.rect.rect())
}

// Appends the rectangle of a block, if it stands before another one.
fn push_before(before: &mut Vec<Rect>, face: &Face, other: &Face) -> Result<(), NoMemory>
    ensures { OnOk result (before.new.items ≡ before.old.items ++ rect_before face.now other.now) }
{
    if stands_before(other, face) {
        before.push(other.rect.rect())?;
    }
    Ok(())
}

// The rectangles of the blocks that stand before one.
fn rects_before(alloc: Global, face: &Face, all: &[Face]) -> Result<Vec<Rect>, NoMemory>
    ensures { IfOk result (λ before. before.items ≡ rects_before face.now all.now) }
{
    let mut before = Vec::new(alloc);
    for other in all {
        push_before(&mut before, face, other)?;
    }
    Ok(before)
}

// Whether a block reaches into a strip.
fn reaches(left: i64, right: i64, face: &Face) -> bool
    ensures { result ≡ reaches left right face.now }
{
    let rect = face.rect.rect();
    rect.left <= right && left <= rect.right
}

// The blocks that reach into a strip.
fn reaching(alloc: Global, left: i64, right: i64, all: &[Face]) -> Result<Vec<Face>, NoMemory>
    ensures { IfOk result (λ faces. faces.items ≡ filter (reaches left right) all.now) }
{
    let mut faces = Vec::new(alloc);
    for face in all {
        if reaches(left, right, face) {
            faces.push(*face)?;
        }
    }
    Ok(faces)
}

// In which strip a block begins, of strips of that width.
fn index_of(face: &Face, wide: i64) -> usize
    requires { pos 1 ≤ℤ wide }
{
    let index = quotient(face.rect.rect().left, wide);
    if index < 0 {
        0
    } else {
        (index as usize).min(STRIPS - 1)
    }
}

// From where to where the blocks extend that begin in a strip.
fn extent(index: usize, wide: i64, all: &[Face]) -> (i64, i64)
    requires { pos 1 ≤ℤ wide }
{
    let mut left = i64::MAX;
    let mut right = i64::MIN;
    for face in all {
        if index_of(face, wide) == index {
            let rect = face.rect.rect();
            left = left.min(rect.left);
            right = right.max(rect.right);
        }
    }
    (left, right)
}

// A strip of a view.
fn strip_at(alloc: Global, index: usize, wide: i64, all: &[Face]) -> Result<Strip, NoMemory>
    requires { pos 1 ≤ℤ wide }
    ensures { IfOk result (IsStrip all.now) }
{
    let (left, right) = extent(index, wide, all);
    let faces = reaching(alloc, left, right, all)?;
    let faces = if faces.len() <= all.len() / MANY {
        Some(faces)
    } else {
        None
    };
    Ok(Strip { left, right, faces })
}

// The strips of a view.
fn strips_of(alloc: Global, wide: i64, all: &[Face]) -> Result<Vec<Strip>, NoMemory>
    requires { pos 1 ≤ℤ wide }
    ensures { IfOk result (λ strips. AllByRecursion (IsStrip all.now) strips.items) }
{
    let mut strips = Vec::new(alloc);
    for index in 0..STRIPS {
        strips.push(strip_at(alloc, index, wide, all)?)?;
    }
    Ok(strips)
}

// Blocks among which all stand that stand before one: those of a strip if it lies within the strip, or else all.
fn rivals<'a>(strip: &'a Strip, face: &Face, all: &'a [Face]) -> &'a [Face]
    requires { IsStrip all.now strip.now }
    ensures { rects_before face.now result.now ≡ rects_before face.now all.now }
{
    let Some(faces) = &strip.faces else {
        return all;
    };
    let rect = face.rect.rect();
    if strip.left <= rect.left && rect.right <= strip.right {
        faces.as_slice()
    } else {
        all
    }
}

// The same, of these strips.
fn rivals_in<'a>(strips: &'a [Strip], wide: i64, face: &Face, all: &'a [Face]) -> &'a [Face]
    requires wide { pos 1 ≤ℤ wide }
    requires strips { AllByRecursion (IsStrip all.now) strips.now }
    ensures { rects_before face.now result.now ≡ rects_before face.now all.now }
{
    match strips.get(index_of(face, wide)) {
        Some(strip) => rivals(strip, face, all),
        None => all,
    }
}

// A block and how it is shown behind these rectangles.
fn seen_behind(before: &[Rect], face: &Face, unit: Unit) -> Seen
    ensures { result ≡ record { face = face.now; shown = shown_of before.now face.now unit } }
{
    Seen {
        face: *face,
        shown: shown_of(before, face, unit),
    }
}

// Appends how a block is shown behind those of its rivals that stand before it.
fn push_among(
    alloc: Global,
    seen: &mut Vec<Seen>,
    face: &Face,
    rivals: &[Face],
    unit: Unit,
) -> Result<(), NoMemory>
    ensures { OnOk result (seen.new.items ≡ seen.old.items ++ seen_of unit rivals.now face.now ∷ []) }
{
    let before = rects_before(alloc, face, rivals)?;
    seen.push(seen_behind(before.as_slice(), face, unit))?;
    Ok(())
}

// Appends how each block is shown, with these strips.
fn push_seen(
    alloc: Global,
    seen: &mut Vec<Seen>,
    strips: &[Strip],
    wide: i64,
    all: &[Face],
    unit: Unit,
) -> Result<(), NoMemory>
    requires wide { pos 1 ≤ℤ wide }
    requires strips { AllByRecursion (IsStrip all.now) strips.now }
    ensures { OnOk result (seen.new.items ≡ seen.old.items ++ all_seen unit all.now) }
{
    for face in all {
        let rivals = rivals_in(strips, wide, face, all);
        push_among(alloc, seen, face, rivals, unit)?;
    }
    Ok(())
}

/// How each block of a view of that width is shown.
pub(crate) fn all_seen(
    alloc: Global,
    wide: Length,
    all: &[Face],
    unit: Unit,
) -> Result<Vec<Seen>, NoMemory>
    ensures { IfOk result (λ seen. seen.items ≡ all_seen unit all.now) }
{
    let wide = quotient(wide.get(), STRIPS as i64).max(1);
    let strips = strips_of(alloc, wide, all)?;
    let mut seen = Vec::new(alloc);
    push_seen(alloc, &mut seen, strips.as_slice(), wide, all, unit)?;
    Ok(seen)
}
