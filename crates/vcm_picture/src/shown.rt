//! Which blocks a view shows, how, and where their numbers stand.

ghost use Rattle.std.specs.Prelude.{◌≡◌, ◌≤◌, ◌≤ℤ◌, ◌*ℤ◌, length, pos, not, option_map, IfOk, IsTrue};
ghost use Rattle.std.specs.List.{list_all, find};
ghost use Rattle.vcm_spec.specs.Workpiece.{is_block};
ghost use Rattle.vcm_picture.specs.Shown.{face_of, faces_from, is_repeated, is_hidden, is_covered, size_of, corners, room, figure_at, figure_with, digits_of, figure_of, shown_of};
ghost use Rattle.vcm_picture.specs.Ranges.{IsLetters};

use crate::view::{Scope, nearness, rect_of};
use crate::whole::{letters_wide, text_box};
use std::alloc::Global;
use vcm_num::{NoMemory, int_text};
use vcm_spec::Block3;
use vcm_svg::{
    Area, Length, Lettering, Placement, Rect, TextBox, Unit, contains, is_same, meets, quotient,
};

/// A block in a view: its number, its corners, its rectangle, and how near it is.
#[derive(Clone, Copy)]
pub struct Face {
    pub number: u32,
    pub block: Block3,
    pub rect: Area,
    pub near: i64,
}

/// Where the number of a block stands: its box, and where in it its letters begin.
#[derive(Clone, Copy)]
pub struct Figure {
    pub area: Rect,
    pub label: Placement,
}

/// How a view shows a block.
#[derive(Clone, Copy)]
pub enum Shown {
    /// A nearer block has the same rectangle: not at all.
    Repeated,
    /// The rectangle of a nearer block contains its own: by a broken outline.
    Hidden,
    /// Filled, with its number where there is room.
    Open(Option<Figure>),
}

/// A block in a view, and how it is shown.
#[derive(Clone, Copy)]
pub struct Seen {
    pub face: Face,
    pub shown: Shown,
}

// A block in a view.
fn face_of(scope: Scope, number: u32, block: &Block3) -> Face
    requires block { IsTrue (is_block block.now) }
    ensures { result ≡ face_of scope number block.now }
{
    Face {
        number,
        block: *block,
        rect: rect_of(scope, block.low, block.high),
        near: nearness(scope.view(), block),
    }
}

/// The blocks in a view, counted from 1.
pub(crate) fn faces_of(
    alloc: Global,
    scope: Scope,
    blocks: &[Block3],
) -> Result<Vec<Face>, NoMemory>
    requires few { length blocks.now ≤ 4096 }
    requires blocks { IsTrue (list_all is_block blocks.now) }
    ensures { IfOk result (λ faces. faces.items ≡ faces_from scope 1 blocks.now) }
{
    let mut faces = Vec::new(alloc);
    let mut number = 0;
    for block in blocks {
        number += 1;
        faces.push(face_of(scope, number, block))?;
    }
    Ok(faces)
}

// Whether one of the rectangles before it is the same.
fn is_repeated(before: &[Rect], rect: Rect) -> bool
    ensures { result ≡ is_repeated before.now rect }
{
    before.iter().any(|other| is_same(*other, rect))
}

// Whether one of the rectangles before it contains it.
fn is_hidden(before: &[Rect], rect: Rect) -> bool
    ensures { result ≡ is_hidden before.now rect }
{
    before.iter().any(|other| contains(*other, rect))
}

// Whether one of the rectangles before it meets it.
fn is_covered(before: &[Rect], area: Rect) -> bool
    ensures { result ≡ is_covered before.now area }
{
    before.iter().any(|other| meets(*other, area))
}

// The size of the letters of a number with so many digits.
fn size_of(rect: Area, digits: i64, unit: Unit) -> i64
    requires digits { IsLetters digits }
    ensures size { result ≡ size_of rect digits unit }
    ensures below { result ≤ℤ unit }
{
    let across = quotient(rect.wide(), 6 * digits + 4);
    let down = quotient(rect.high(), 11);
    unit.get().min(across.min(down))
}

// The boxes in the four corners of a rectangle, in the order in which they are tried.
fn corners(rect: Area, wide: Length, size: Unit) -> [TextBox; 4]
    ensures { result ≡ corners rect wide size }
{
    let Rect {
        left,
        top,
        right,
        bottom,
    } = rect.rect();
    let unit = size.get();
    let high = size.times(9);
    let left = left + 2 * unit;
    let right = right - 2 * unit - wide.get();
    let top = top + unit;
    let bottom = bottom - 10 * unit;
    [
        text_box(left, top, wide, high),
        text_box(right, top, wide, high),
        text_box(left, bottom, wide, high),
        text_box(right, bottom, wide, high),
    ]
}

// The first of some boxes that meets none of the rectangles before it.
fn first_open(before: &[Rect], boxes: &[TextBox]) -> Option<TextBox>
    ensures { result ≡ find (λ a. not (is_covered before.now a)) boxes.now }
{
    boxes
        .iter()
        .copied()
        .find(|area| !is_covered(before, area.rect()))
}

// The first corner of a rectangle where a number finds room.
fn room(before: &[Rect], rect: Area, wide: Length, size: Unit) -> Option<TextBox>
    ensures { result ≡ room before.now rect wide size }
{
    let boxes = corners(rect, wide, size);
    first_open(before, &boxes)
}

// Where a number stands whose letters have that size, in a box.
fn figure_at(area: TextBox, size: Unit) -> Figure
    ensures { result ≡ figure_at size area }
{
    Figure {
        area: area.rect(),
        label: Placement {
            at: area.first_letter(size.times(8)),
            size: size.get(),
            class: Lettering::Number,
        },
    }
}

// Where a number stands in a rectangle with letters of that size, if there is room.
fn figure_in(before: &[Rect], rect: Area, digits: i64, size: Unit) -> Option<Figure>
    requires digits { IsLetters digits }
    ensures { result ≡ option_map (figure_at size) (room before.now rect (pos 6 *ℤ digits *ℤ size) size) }
{
    match room(before, rect, letters_wide(digits, size), size) {
        Some(area) => Some(figure_at(area, size)),
        None => None,
    }
}

// Where a number stands in a rectangle with letters of that size, if there is room.
fn figure_with(before: &[Rect], rect: Area, digits: i64, size: i64) -> Option<Figure>
    requires digits { IsLetters digits }
    requires size { size ≤ℤ pos 8589934592 }
    ensures { result ≡ figure_with before.now rect digits size }
{
    if size < 1 {
        return None;
    }
    figure_in(before, rect, digits, Unit::new(size))
}

// How many digits a number has.
fn digits_of(number: u32) -> i64
    ensures digits { result ≡ digits_of number }
    ensures few { IsLetters result }
{
    int_text(i64::from(number)).as_slice().len() as i64
}

// Where the number of a block stands, if there is room.
fn figure_of(before: &[Rect], face: &Face, unit: Unit) -> Option<Figure>
    ensures { result ≡ figure_of before.now face.now unit }
{
    let digits = digits_of(face.number);
    let size = size_of(face.rect, digits, unit);
    figure_with(before, face.rect, digits, size)
}

/// How a block is shown behind these rectangles. What isn't hidden isn't repeated, and so is asked once.
pub(crate) fn shown_of(before: &[Rect], face: &Face, unit: Unit) -> Shown
    ensures { result ≡ shown_of before.now face.now unit }
{
    let rect = face.rect.rect();
    if !is_hidden(before, rect) {
        return Shown::Open(figure_of(before, face, unit));
    }
    if is_repeated(before, rect) {
        return Shown::Repeated;
    }
    Shown::Hidden
}
