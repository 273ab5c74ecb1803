//! The three views.

ghost use Rattle.std.specs.Prelude.{◌≡◌, ◌<◌, ◌-ℤ◌, IsTrue};
ghost use Rattle.std.specs.Int.{int_div_euclid};
ghost use Rattle.vcm_num.specs.Point.{coordinate, is_near};
ghost use Rattle.vcm_spec.specs.Workpiece.{is_block};
ghost use Rattle.vcm_picture.specs.View.{right_axis, up_axis, title, clip, nearness, scope_of, near_spot, spot_of, rect_of};
ghost use Rattle.vcm_picture.specs.Ranges.{IsBorder};
ghost use Rattle.vcm_svg.specs.Ranges.{IsSmall};

use crate::drawn::drawn_at;
use crate::window::Window;
use std::marker::Model;
use vcm_num::Point;
use vcm_spec::Block3;
use vcm_svg::{Area, BoundedSpot, Length, Rect, Spot, Unit, quotient};

/// A view: from above, from the front, from the right.
#[derive(Clone, Copy)]
pub enum View {
    Top,
    Front,
    Side,
}

/// What a view shows: the micrometres at its left and upper edge, the micrometres of a unit of the picture, the unit of marks and texts, and its
/// width and height in units of the picture.
#[derive(Clone, Copy)]
pub struct Scope {
    view: View,
    left: i64,
    top: i64,
    grain: Unit,
    unit: Unit,
    wide: Length,
    high: Length,
}

impl Model for Scope {
    ghost use Rattle.vcm_picture.specs.Sights.{Scope as Meaning};
    ghost use Rattle.vcm_picture.specs.Ranges.{IsBorder};

    ghost Value = { Meaning };

    ghost view = { λ s. record { view = s.view; left = s.left; top = s.top; grain = s.grain; unit = s.unit; wide = s.wide; high = s.high } };

    ghost invariant = { λ s. IsBorder s.left × IsBorder s.top };

    ghost inverse = { λ s. record { view = s.view; left = s.left; top = s.top; grain = s.grain; unit = s.unit; wide = s.wide; high = s.high } };
}

impl Scope {
    /// From where it looks.
    pub fn view(self) -> View
        ensures { result ≡ self.view }
    {
        self.view
    }

    /// The micrometres of a unit of the picture.
    pub fn grain(self) -> Unit
        ensures { result ≡ self.grain }
    {
        self.grain
    }

    /// The unit of marks and texts, in units of the picture.
    pub fn unit(self) -> Unit
        ensures { result ≡ self.unit }
    {
        self.unit
    }

    /// Its width in units of the picture.
    pub fn wide(self) -> Length
        ensures { result ≡ self.wide }
    {
        self.wide
    }

    /// Its height in units of the picture.
    pub fn high(self) -> Length
        ensures { result ≡ self.high }
    {
        self.high
    }
}

/// The axis that goes to the right in a view, 0 being X.
pub fn right_axis(view: View) -> usize
    ensures axis { result ≡ right_axis view }
    ensures below { result < 3 }
{
    match view {
        View::Top => 0,
        View::Front => 0,
        View::Side => 1,
    }
}

/// The axis that goes up in a view.
pub fn up_axis(view: View) -> usize
    ensures axis { result ≡ up_axis view }
    ensures below { result < 3 }
{
    match view {
        View::Top => 1,
        View::Front => 2,
        View::Side => 2,
    }
}

/// The title of a view.
pub(crate) fn title<'a>(view: View) -> &'a [u8]
    ensures { result.now ≡ title view }
{
    match view {
        View::Top => b"top: X right, Y up",
        View::Front => b"front: X right, Z up",
        View::Side => b"right side: Y right, Z up",
    }
}

/// The digit of a view's clip path.
pub(crate) fn clip<'a>(view: View) -> &'a [u8]
    ensures { result.now ≡ clip view }
{
    match view {
        View::Top => b"0",
        View::Front => b"1",
        View::Side => b"2",
    }
}

/// How near a block is in a view: of two blocks, that with the greater number is the nearer one.
pub(crate) fn nearness(view: View, block: &Block3) -> i64
    requires { IsTrue (is_block block.now) }
    ensures { result ≡ nearness view block.now }
{
    match view {
        View::Top => block.high.0[2],
        View::Front => -block.low.0[1],
        View::Side => block.high.0[0],
    }
}

// How wide an axis of a window is in units of the picture.
fn width_of(window: Window, axis: usize) -> Length
    requires { axis < 3 }
    ensures { result ≡ int_div_euclid (coordinate window.full axis) window.grain }
{
    Length::new(quotient(window.full(axis), window.grain().get()))
}

/// What a view shows of a window, in micrometres and in units of the picture.
pub fn scope_of(window: Window, view: View) -> Scope
    ensures { result ≡ scope_of window view }
{
    let right = right_axis(view);
    let up = up_axis(view);
    Scope {
        view,
        left: window.low(right),
        top: window.low(up) + window.full(up),
        grain: window.grain(),
        unit: window.unit(),
        wide: width_of(window, right),
        high: width_of(window, up),
    }
}

// How far the first number lies above the second, in units of a grain.
fn offset(number: i64, from: i64, grain: Unit) -> i64
    requires number { IsBorder number }
    requires from { IsBorder from }
    ensures value { result ≡ int_div_euclid (number -ℤ from) grain }
    ensures small { IsSmall result }
{
    quotient(number - from, grain.get())
}

// Where a near point stands in a view.
fn near_spot(scope: Scope, at: Point) -> BoundedSpot
    requires { IsTrue (is_near at) }
    ensures { result ≡ near_spot scope at }
{
    let x = at.0[right_axis(scope.view)];
    let y = at.0[up_axis(scope.view)];
    BoundedSpot::new(Spot {
        x: offset(x, scope.left, scope.grain),
        y: offset(scope.top, y, scope.grain),
    })
}

/// Where a point stands in a view, in units of the picture from its upper left corner.
pub fn spot_of(scope: Scope, at: Point) -> BoundedSpot
    ensures { result ≡ spot_of scope at }
{
    near_spot(scope, drawn_at(at))
}

/// The rectangle of what lies between two corners.
pub(crate) fn rect_of(scope: Scope, low: Point, high: Point) -> Area
    ensures { result ≡ rect_of scope low high }
{
    let Spot { x: left, y: bottom } = spot_of(scope, low).spot();
    let Spot { x: right, y: top } = spot_of(scope, high).spot();
    Area::new(Rect {
        left,
        top,
        right,
        bottom,
    })
}
