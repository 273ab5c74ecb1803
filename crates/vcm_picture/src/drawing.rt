//! A view, drawn.

ghost use Rattle.std.specs.Prelude.{◌≡◌, ◌≤◌, ◌++◌, [], length, Some, OnOk, IfOk, IsTrue};
ghost use Rattle.std.specs.List.{list_all};
ghost use Rattle.vcm_spec.specs.Workpiece.{is_block};
ghost use Rattle.vcm_picture.specs.Drawing.{name_label, name_shape, contact_name, first_shapes, feature_name, feature_shapes, title_label, frame_of, group_text, view_front, names_beside, names_shapes, view_shapes, view_text, scene, scene_shapes};

use crate::blocks::push_blocks;
use crate::marks::contact_of;
use crate::names::{FirstNames, Named, feature_names, first_names, take_figures};
use crate::shapes::{Shape, Words, push_shape, push_shapes, put_shapes};
use crate::shown::{Seen, faces_of};
use crate::strips::all_seen;
use crate::view::{Scope, View, clip, title};
use crate::way::push_way;
use std::alloc::Global;
use vcm_items::Name;
use vcm_marks::{Contact, PlacedMark};
use vcm_num::{NoMemory, Point};
use vcm_part::PartData;
use vcm_spec::{Block3, Bounds};
use vcm_state::World;
use vcm_svg::{
    BoundedSpot, Class, Fragment, Lettering, Outline, Placement, Rect, Spot, TextBox, Unit, put,
    put_path, put_text,
};

// Where a name stands in its box.
fn name_label(area: TextBox, unit: Unit) -> Placement
    ensures { result ≡ name_label area unit }
{
    Placement {
        at: area.first_letter(unit.times(8)),
        size: unit.get(),
        class: Lettering::Name,
    }
}

// A name in its box, if it has one.
fn name_shape(area: Option<TextBox>, unit: Unit, words: Words) -> Option<Shape>
    ensures { result ≡ name_shape area unit words }
{
    match area {
        Some(area) => Some(Shape::Text(name_label(area, unit), words)),
        None => None,
    }
}

// The name of the contact, if it has a box.
fn contact_name(area: Option<TextBox>, unit: Unit, contact: Option<Contact>) -> Option<Shape>
    ensures { result ≡ contact_name area unit contact }
{
    match contact {
        Some(contact) => name_shape(area, unit, Words::Block(contact.block)),
        None => None,
    }
}

// The names of the contact, of the end and of home.
fn first_shapes(unit: Unit, contact: Option<Contact>, names: FirstNames) -> [Option<Shape>; 3]
    ensures { result ≡ first_shapes unit contact names }
{
    [
        contact_name(names.contact, unit, contact),
        name_shape(names.end, unit, Words::End),
        name_shape(names.home, unit, Words::Home),
    ]
}

// The name of a touched point.
fn feature_name(unit: Unit, named: &Named) -> Option<Shape>
    ensures { result ≡ Some (feature_name unit named.now) }
{
    name_shape(Some(named.area), unit, Words::Feature(named.feature))
}

// Appends the names of the touched points.
fn push_features(shapes: &mut Vec<Shape>, unit: Unit, named: &[Named]) -> Result<(), NoMemory>
    ensures { OnOk result (shapes.new.items ≡ shapes.old.items ++ feature_shapes unit named.now) }
{
    for one in named {
        push_shape(shapes, feature_name(unit, one))?;
    }
    Ok(())
}

// The names of the touched points that find room beside what is taken.
fn names_beside(
    alloc: Global,
    scope: Scope,
    features: &[Name],
    marks: &[PlacedMark],
    taken: &mut Vec<Rect>,
) -> Result<Vec<Named>, NoMemory>
    ensures { IfOk result (λ named. named.items ≡ names_beside scope features.now marks.now taken.old.items) }
{
    let mut named = Vec::new(alloc);
    feature_names(scope, features, marks, taken, &mut named)?;
    Ok(named)
}

// Appends the names of a view with this home, these names and this position, beside the numbers of its blocks.
fn push_names(
    alloc: Global,
    shapes: &mut Vec<Shape>,
    scope: Scope,
    home: Point,
    features: &[Name],
    position: Point,
    marks: &[PlacedMark],
    all: &[Seen],
) -> Result<(), NoMemory>
    ensures { OnOk result (shapes.new.items ≡ shapes.old.items ++ names_shapes scope home features.now position marks.now all.now) }
{
    let contact = contact_of(marks);
    let mut taken = Vec::new(alloc);
    let first = first_names(scope, contact, position, home, &mut taken)?;
    take_figures(&mut taken, all)?;
    let named = names_beside(alloc, scope, features, marks, &mut taken)?;
    push_shapes(shapes, &first_shapes(scope.unit(), contact, first))?;
    push_features(shapes, scope.unit(), named.as_slice())
}

// The shapes of a view of these blocks, limits, names and marks, with this position at the end.
fn view_shapes(
    alloc: Global,
    scope: Scope,
    blocks: &[Block3],
    bounds: Bounds,
    features: &[Name],
    position: Point,
    marks: &[PlacedMark],
) -> Result<Vec<Shape>, NoMemory>
    requires few { length blocks.now ≤ 4096 }
    requires blocks { IsTrue (list_all is_block blocks.now) }
    ensures { IfOk result (λ shapes. shapes.items ≡ view_shapes scope blocks.now bounds features.now position marks.now) }
{
    let faces = faces_of(alloc, scope, blocks)?;
    let all = all_seen(alloc, scope.wide(), faces.as_slice(), scope.unit())?;
    let seen = all.as_slice();
    let mut shapes = Vec::new(alloc);
    push_blocks(&mut shapes, faces.as_slice(), seen, contact_of(marks))?;
    push_way(&mut shapes, scope, bounds, position, marks)?;
    push_names(
        alloc,
        &mut shapes,
        scope,
        bounds.home,
        features,
        position,
        marks,
        seen,
    )?;
    Ok(shapes)
}

// Where the title of a view stands, at a place of the picture.
fn title_label(at: BoundedSpot, unit: Unit) -> Placement
    ensures { result ≡ title_label at unit }
{
    Placement {
        at: at.site().up_by(unit.times(6)),
        size: unit.get(),
        class: Lettering::Plain,
    }
}

// Appends the beginning of the group of a view at a place of the picture.
fn begin_group(out: &mut Vec<u8>, view: View, at: BoundedSpot) -> Result<(), NoMemory>
    ensures { OnOk result (out.new.items ≡ out.old.items ++ group_text view at) }
{
    let Spot { x, y } = at.spot();
    put(
        out,
        &[
            Fragment::Text(b"<g transform=\"matrix(1 0 0 1 "),
            Fragment::Number(x),
            Fragment::Text(b" "),
            Fragment::Number(y),
            Fragment::Text(b")\" clip-path=\"url(#v"),
            Fragment::Text(clip(view)),
            Fragment::Text(b")\">\n"),
        ],
    )
}

/// The frame of a view.
pub(crate) fn frame_of(scope: Scope) -> Outline
    ensures { result ≡ frame_of scope }
{
    let corner = Spot { x: 0, y: 0 };
    Outline::Rectangle(corner, scope.wide().get(), scope.high().get())
}

/// Appends the title of a view, begins its group and draws its frame, at a place of the picture.
pub fn begin_view(out: &mut Vec<u8>, scope: Scope, at: BoundedSpot) -> Result<(), NoMemory>
    ensures { OnOk result (out.new.items ≡ out.old.items ++ view_front scope at) }
{
    put_text(
        out,
        title_label(at, scope.unit()),
        &[Fragment::Text(title(scope.view()))],
    )?;
    begin_group(out, scope.view(), at)?;
    put_path(out, Class::Frame, frame_of(scope))
}

/// The shapes of a view of a workpiece and of the marks of a way, with the state at the end: blocks, way and names.
pub fn scene_shapes(
    alloc: Global,
    scope: Scope,
    part: &PartData,
    world: &World,
    marks: &[PlacedMark],
) -> Result<Vec<Shape>, NoMemory>
    ensures { IfOk result (λ shapes. shapes.items ≡ scene_shapes scope (scene part.now world.now []) marks.now) }
{
    let features = world.tables().features();
    let bounds = part.bounds();
    let position = world.position();
    let shapes = view_shapes(
        alloc,
        scope,
        part.blocks(),
        bounds,
        features,
        position,
        marks,
    )?;
    Ok(shapes)
}

/// Appends a view at a place of the picture.
pub(crate) fn put_view(
    alloc: Global,
    out: &mut Vec<u8>,
    scope: Scope,
    at: BoundedSpot,
    part: &PartData,
    world: &World,
    stopped: &[u8],
    marks: &[PlacedMark],
) -> Result<(), NoMemory>
    ensures { OnOk result (out.new.items ≡ out.old.items ++ view_text scope at (scene part.now world.now stopped.now) marks.now) }
{
    let features = world.tables().features();
    let shapes = scene_shapes(alloc, scope, part, world, marks)?;
    begin_view(out, scope, at)?;
    put_shapes(out, features, stopped, shapes.as_slice())?;
    put(out, &[Fragment::Text(b"</g>\n")])
}
