//! The way of the probe in a view: limits, pieces, touched points, home, end and contact.

ghost use Rattle.std.specs.Prelude.{◌≡◌, ◌++◌, ◌||◌, int_lt, OnOk};
ghost use Rattle.vcm_marks.specs.declared.mark.Going.TheVariants as going;
ghost use Rattle.vcm_picture.specs.Way.{class_of, class_if, piece_shape, mark_piece, pieces, touched_shape, mark_touched, touched_points, in_view, limits_in, limits_shape, home_shape, end_shape, tip_shape, half_of, tip_at, tip_at_contact, contact_shape, ends, way_shapes};

use crate::marks::{are_few, contact_of};
use crate::shapes::{Shape, Tip, push_shape, push_shapes, step_of};
use crate::view::{Scope, rect_of, spot_of};
use vcm_marks::{Contact, Going, Leg, Mark, PlacedMark, Touched};
use vcm_num::{NoMemory, Point};
use vcm_spec::Bounds;
use vcm_svg::{
    Area, Class, Length, Outline, Rect, Spot, circle, cross, quotient, rect_outline, square_round,
};

// The class of a move between two places.
fn move_class(from: Spot, to: Spot, is_few: bool) -> Class
    ensures { result ≡ class_of going.Move from to is_few }
{
    if is_few && !(from.x == to.x && from.y == to.y) {
        Class::Arrow
    } else {
        Class::Move
    }
}

// The class of a piece between two places.
fn class_of(going: Going, from: Spot, to: Spot, is_few: bool) -> Class
    ensures { result ≡ class_of going from to is_few }
{
    match going {
        Going::Move => move_class(from, to, is_few),
        Going::Approach => Class::Approach,
        Going::Search => Class::Search,
        Going::Retract => Class::Retract,
        Going::Rest => Class::Rest,
    }
}

// The class of a piece of this class, if it begins elsewhere.
fn class_if(is_elsewhere: bool, class: Class) -> Class
    ensures { result ≡ class_if is_elsewhere class }
{
    if is_elsewhere {
        Class::Elsewhere
    } else {
        class
    }
}

// A piece.
fn piece_shape(scope: Scope, is_few: bool, placed: &PlacedMark, piece: &Leg) -> Shape
    ensures { result ≡ piece_shape scope is_few placed.now piece.now }
{
    let from = spot_of(scope, piece.from).spot();
    let to = spot_of(scope, piece.to).spot();
    Shape::Told(
        class_if(placed.is_elsewhere, class_of(piece.going, from, to, is_few)),
        Outline::Line(from, to),
        Tip::Leg(step_of(placed), *piece),
    )
}

// A mark, if it is a piece.
fn mark_piece(scope: Scope, is_few: bool, placed: &PlacedMark) -> Option<Shape>
    ensures { result ≡ mark_piece scope is_few placed.now placed.now.mark }
{
    match &placed.mark {
        Mark::Goes(piece) => Some(piece_shape(scope, is_few, placed, piece)),
        Mark::Touches(_) => None,
        Mark::Meets(_) => None,
    }
}

// Appends the pieces.
fn push_pieces(
    shapes: &mut Vec<Shape>,
    scope: Scope,
    is_few: bool,
    marks: &[PlacedMark],
) -> Result<(), NoMemory>
    ensures { OnOk result (shapes.new.items ≡ shapes.old.items ++ pieces scope is_few marks.now) }
{
    for placed in marks {
        push_shape(shapes, mark_piece(scope, is_few, placed))?;
    }
    Ok(())
}

// A touched point.
fn touched_shape(scope: Scope, placed: &PlacedMark, touched: &Touched) -> Shape
    ensures { result ≡ touched_shape scope placed.now touched.now }
{
    Shape::Told(
        Class::Touched,
        circle(spot_of(scope, touched.at).site(), scope.unit().times(3)),
        Tip::Touched(step_of(placed), *touched),
    )
}

// A mark, if it is a touched point.
fn mark_touched(scope: Scope, placed: &PlacedMark) -> Option<Shape>
    ensures { result ≡ mark_touched scope placed.now placed.now.mark }
{
    match &placed.mark {
        Mark::Touches(touched) => Some(touched_shape(scope, placed, touched)),
        Mark::Goes(_) => None,
        Mark::Meets(_) => None,
    }
}

// Appends the touched points.
fn push_touched(shapes: &mut Vec<Shape>, scope: Scope, marks: &[PlacedMark]) -> Result<(), NoMemory>
    ensures { OnOk result (shapes.new.items ≡ shapes.old.items ++ touched_points scope marks.now) }
{
    for placed in marks {
        push_shape(shapes, mark_touched(scope, placed))?;
    }
    Ok(())
}

// What is seen of a rectangle in a view, with a little more on each side.
fn in_view(scope: Scope, all: Area) -> Area
    ensures { result ≡ in_view scope all }
{
    let unit = scope.unit().get();
    let rim = 4 * unit;
    let rect = all.rect();
    Area::new(Rect {
        left: rect.left.max(-4 * unit),
        top: rect.top.max(-4 * unit),
        right: rect.right.min(scope.wide().get() + rim),
        bottom: rect.bottom.min(scope.high().get() + rim),
    })
}

// Whether a rectangle is turned inside out: so is what is seen of one that lies out of view.
fn is_none(rect: Rect) -> bool
    ensures { result ≡ (int_lt rect.right rect.left || int_lt rect.bottom rect.top) }
{
    rect.right < rect.left || rect.bottom < rect.top
}

// The limits, of which this is seen.
fn limits_in(area: Area, low: Point, high: Point) -> Option<Shape>
    ensures { result ≡ limits_in area low high }
{
    if is_none(area.rect()) {
        return None;
    }
    Some(Shape::Told(Class::Limits, rect_outline(area), Tip::Limits(low, high)))
}

// The limits, where they lie in the view.
fn limits_shape(scope: Scope, low: Point, high: Point) -> Option<Shape>
    ensures { result ≡ limits_shape scope low high }
{
    limits_in(in_view(scope, rect_of(scope, low, high)), low, high)
}

// Home.
fn home_shape(scope: Scope, home: Point) -> Shape
    ensures { result ≡ home_shape scope home }
{
    Shape::Told(
        Class::Place,
        square_round(spot_of(scope, home).site(), scope.unit().times(5)),
        Tip::Home(home),
    )
}

// The end.
fn end_shape(scope: Scope, position: Point) -> Shape
    ensures { result ≡ end_shape scope position }
{
    Shape::Told(
        Class::Place,
        circle(spot_of(scope, position).site(), scope.unit().times(8)),
        Tip::End(position),
    )
}

// The half width of the tip in units of the picture.
fn half_of(scope: Scope, tip: u32) -> Length
    ensures { result ≡ half_of scope tip }
{
    Length::new(quotient(i64::from(tip), scope.grain().get()))
}

// The tip of that half width in micrometres at a point, which this tells.
fn tip_shape(scope: Scope, tip: u32, at: Point, tells: Tip) -> Shape
    ensures { result ≡ tip_shape scope tip at tells }
{
    let outline = square_round(spot_of(scope, at).site(), half_of(scope, tip));
    Shape::Told(Class::Tip, outline, tells)
}

// The same, where the tip isn't a point.
fn tip_at(scope: Scope, tip: u32, at: Point, tells: Tip) -> Option<Shape>
    ensures { result ≡ tip_at scope tip at tells }
{
    if tip == 0 {
        return None;
    }
    Some(tip_shape(scope, tip, at, tells))
}

// The same at the contact, if there is one.
fn tip_at_contact(scope: Scope, tip: u32, contact: Option<Contact>) -> Option<Shape>
    ensures { result ≡ tip_at_contact scope tip contact }
{
    match contact {
        Some(contact) => tip_at(scope, tip, contact.at, Tip::TipAtContact),
        None => None,
    }
}

// The contact.
fn contact_shape(scope: Scope, contact: Option<Contact>) -> Option<Shape>
    ensures { result ≡ contact_shape scope contact }
{
    match contact {
        Some(contact) => Some(Shape::Told(
            Class::Cross,
            cross(spot_of(scope, contact.at).site(), scope.unit().times(6)),
            Tip::Contact(contact),
        )),
        None => None,
    }
}

// Home, the end, the tip there, and the contact.
fn ends(
    scope: Scope,
    bounds: Bounds,
    position: Point,
    contact: Option<Contact>,
) -> [Option<Shape>; 5]
    ensures { result ≡ ends scope bounds position contact }
{
    [
        Some(home_shape(scope, bounds.home)),
        Some(end_shape(scope, position)),
        tip_at(scope, bounds.tip, position, Tip::TipAtEnd),
        tip_at_contact(scope, bounds.tip, contact),
        contact_shape(scope, contact),
    ]
}

/// Appends the way in a view, with these limits and this position at the end.
pub(crate) fn push_way(
    shapes: &mut Vec<Shape>,
    scope: Scope,
    bounds: Bounds,
    position: Point,
    marks: &[PlacedMark],
) -> Result<(), NoMemory>
    ensures { OnOk result (shapes.new.items ≡ shapes.old.items ++ way_shapes scope bounds position marks.now) }
{
    push_shape(shapes, limits_shape(scope, bounds.low, bounds.high))?;
    push_pieces(shapes, scope, are_few(marks), marks)?;
    push_touched(shapes, scope, marks)?;
    push_shapes(shapes, &ends(scope, bounds, position, contact_of(marks)))
}
