//! The views of a sheet: the shapes of a picture without the names of features, and the numbers of points.

ghost use Rattle.std.specs.Prelude.{◌≡◌, ◌++◌, [], pos, length, decimal, option_to_list, IfOk, OnOk};
ghost use Rattle.vcm_picture.specs.Drawing.{scene, scene_shapes};
ghost use Rattle.vcm_picture.specs.Ranges.{IsLetters};
ghost use Rattle.vcm_sheet.specs.Content.{shown_in};
ghost use Rattle.vcm_sheet.specs.Views.{is_feature, is_name, names_end, tells_end, is_end, is_kept, kept_shapes, letters_in, text_box, circle_box, point_box, box_of, boxes_of, drawn_at};

use crate::numbers::{Numbered, numbers_of};
use crate::points::Pointed;
use std::alloc::Global;
use vcm_marks::PlacedMark;
use vcm_num::{NoMemory, int_text};
use vcm_part::PartData;
use vcm_picture::{Scope, Shape, Tip, Words, scene_shapes};
use vcm_state::World;
use vcm_svg::{Outline, Placement, Rect};

/// What a view of a sheet shows.
#[derive(Drop)]
pub struct Drawing {
    pub scope: Scope,
    pub shapes: Vec<Shape>,
    pub numbers: Vec<Numbered>,
}

// Whether a shape is the name of a feature.
fn is_name(shape: &Shape) -> bool
    ensures { result ≡ is_name shape.now }
{
    match shape {
        Shape::Text(_, words) => is_feature(words),
        Shape::Path(_, _) => false,
        Shape::Told(_, _, _) => false,
    }
}

// Whether words are the name of a feature.
fn is_feature(words: &Words) -> bool
    ensures { result ≡ is_feature words.now }
{
    match words {
        Words::Feature(_) => true,
        Words::Number(_) => false,
        Words::Block(_) => false,
        Words::End => false,
        Words::Home => false,
    }
}

// Whether words are the name of the end.
fn names_end(words: &Words) -> bool
    ensures { result ≡ names_end words.now }
{
    match words {
        Words::End => true,
        Words::Number(_) => false,
        Words::Block(_) => false,
        Words::Home => false,
        Words::Feature(_) => false,
    }
}

// Whether a tooltip tells of the end.
fn tells_end(tip: &Tip) -> bool
    ensures { result ≡ tells_end tip.now }
{
    match tip {
        Tip::End(_) => true,
        Tip::TipAtEnd => true,
        _ => false,
    }
}

// Whether a shape is of the end.
fn is_end(shape: &Shape) -> bool
    ensures { result ≡ is_end shape.now }
{
    match shape {
        Shape::Path(_, _) => false,
        Shape::Told(_, _, tip) => tells_end(tip),
        Shape::Text(_, words) => names_end(words),
    }
}

// Whether a sheet shows a shape.
fn is_kept(is_drawn: bool, shape: &Shape) -> bool
    ensures { result ≡ is_kept is_drawn shape.now }
{
    !is_name(shape) && (is_drawn || !is_end(shape))
}

// Of shapes those that a sheet shows.
fn kept_shapes(is_drawn: bool, mut shapes: Vec<Shape>) -> Vec<Shape>
    ensures { result.items ≡ kept_shapes is_drawn shapes.items }
{
    shapes.retain(|shape| is_kept(is_drawn, shape));
    shapes
}

// How many digits a number has.
fn digits_in(number: u32) -> i64
    ensures digits { result ≡ pos (length (decimal number)) }
    ensures few { IsLetters result }
{
    int_text(i64::from(number)).as_slice().len() as i64
}

// How many letters words have.
fn letters_in(words: Words) -> i64
    ensures { result ≡ letters_in words }
{
    match words {
        Words::Number(number) => digits_in(number),
        Words::Block(number) => digits_in(number) + 6,
        Words::End => 3,
        Words::Home => 4,
        Words::Feature(_) => 0,
    }
}

// The box of a text.
fn text_box(label: Placement, words: Words) -> Rect
    ensures { result ≡ text_box label words }
{
    let wide = label
        .size
        .saturating_mul(letters_in(words).saturating_mul(6));
    Rect {
        left: label.at.x,
        top: label.at.y.saturating_sub(label.size.saturating_mul(8)),
        right: label.at.x.saturating_add(wide),
        bottom: label.at.y.saturating_add(label.size),
    }
}

// The box of a touched point.
fn point_box(tip: Tip, outline: Outline) -> Option<Rect>
    ensures { result ≡ point_box tip outline }
{
    match tip {
        Tip::Touched(_, _) => circle_box(outline),
        _ => None,
    }
}

// The box of a circle.
fn circle_box(outline: Outline) -> Option<Rect>
    ensures { result ≡ circle_box outline }
{
    match outline {
        Outline::Circle(at, radius, wide) => Some(Rect {
            left: at.x,
            top: at.y.saturating_sub(radius),
            right: at.x.saturating_add(wide),
            bottom: at.y.saturating_add(radius),
        }),
        _ => None,
    }
}

// The box of a shape beside which numbers stand, if it is a text or a touched point.
fn box_of(shape: &Shape) -> Option<Rect>
    ensures { result ≡ box_of shape.now }
{
    match shape {
        Shape::Text(label, words) => Some(text_box(*label, *words)),
        Shape::Told(_, outline, tip) => point_box(*tip, *outline),
        Shape::Path(_, _) => None,
    }
}

// Appends a box, if there is one.
fn push_box(boxes: &mut Vec<Rect>, area: Option<Rect>) -> Result<(), NoMemory>
    ensures { OnOk result (boxes.new.items ≡ boxes.old.items ++ option_to_list area) }
{
    match area {
        Some(area) => {
            boxes.push(area)?;
            Ok(())
        }
        None => Ok(()),
    }
}

// The boxes beside which numbers stand.
fn boxes_of(alloc: Global, shapes: &[Shape]) -> Result<Vec<Rect>, NoMemory>
    ensures { IfOk result (λ v. v.items ≡ boxes_of shapes.now) }
{
    let mut boxes = Vec::new(alloc);
    for shape in shapes {
        push_box(&mut boxes, box_of(shape))?;
    }
    Ok(boxes)
}

/// What a view of a sheet shows of a workpiece, the state at the end, which is drawn or isn't, marks, and points with numbers.
///
/// # Errors
///
/// Out of memory.
#[tactic(auto, unfolding(crate::specs::Views::drawn_at))]
pub(crate) fn drawing_of(
    alloc: Global,
    is_drawn: bool,
    scope: Scope,
    part: &PartData,
    world: &World,
    marks: &[PlacedMark],
    points: &[Pointed],
) -> Result<Drawing, NoMemory>
    ensures scope { IfOk result (λ d. d.scope ≡ scope) }
    ensures shapes { IfOk result (λ d. d.shapes.items ≡ kept_shapes is_drawn (scene_shapes scope (scene part.now world.now []) marks.now)) }
    ensures drawn { IfOk result (λ d. shown_in d ≡ drawn_at is_drawn scope part.now world.now marks.now points.now) }
{
    let all = scene_shapes(alloc, scope, part, world, marks)?;
    let shapes = kept_shapes(is_drawn, all);
    let mut taken = boxes_of(alloc, shapes.as_slice())?;
    let numbers = numbers_of(alloc, scope, points, &mut taken)?;
    Ok(Drawing {
        scope,
        shapes,
        numbers,
    })
}
