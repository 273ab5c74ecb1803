//! What a picture shows: the window, and the unit.

ghost use Rattle.std.specs.Prelude.{◌≡◌, ◌<◌, ◌≤ℤ◌, pos};
ghost use Rattle.vcm_num.specs.Point.{coordinate};
ghost use Rattle.vcm_picture.specs.Window.{size, most_of, grown, low_of, full_of, longest, grain_of, unit_of, window_of, with_unit};
ghost use Rattle.vcm_picture.specs.Ranges.{IsMost, IsEdge};
ghost use Rattle.vcm_svg.specs.Ranges.{IsSize};

use crate::span::Span;
use std::marker::Model;
use vcm_num::Point;
use vcm_svg::{Unit, quotient};

/// What the views show: the low corner and the extent in micrometres, the micrometres of a unit of the picture, and the unit of marks and texts
/// in units of the picture.
#[derive(Clone, Copy)]
pub struct Window {
    low: Point,
    full: Point,
    grain: Unit,
    unit: Unit,
}

impl Model for Window {
    ghost use Rattle.vcm_picture.specs.Sights.{Window as Meaning};
    ghost use Rattle.vcm_picture.specs.Ranges.{IsWindow};

    ghost Value = { Meaning };

    ghost view = { λ w. record { low = w.low; full = w.full; grain = w.grain; unit = w.unit } };

    ghost invariant = { λ w. IsWindow (record { low = w.low; full = w.full; grain = w.grain; unit = w.unit }) };

    ghost inverse = { λ w. record { low = w.low; full = w.full; grain = w.grain; unit = w.unit } };
}

impl Window {
    /// Where it begins on an axis, in micrometres: 0 is X.
    pub fn low(self, axis: usize) -> i64
        requires { axis < 3 }
        ensures value { result ≡ coordinate self.low axis }
        ensures edge { IsEdge result }
    {
        self.low.0[axis]
    }

    /// How far it extends on an axis, in micrometres.
    pub fn full(self, axis: usize) -> i64
        requires { axis < 3 }
        ensures value { result ≡ coordinate self.full axis }
        ensures size { IsSize result }
    {
        self.full.0[axis]
    }

    /// The micrometres of a unit of the picture: a thousand at most.
    pub fn grain(self) -> Unit
        ensures value { result ≡ self.grain }
        ensures fine { result ≤ℤ pos 1000 }
    {
        self.grain
    }

    /// The unit of marks and texts, in units of the picture.
    pub fn unit(self) -> Unit
        ensures value { result ≡ self.unit }
        ensures slim { result ≤ℤ pos 17179870 }
    {
        self.unit
    }

    /// The same window with another unit of marks and texts.
    pub fn with_unit(self, unit: Unit) -> Window
        requires { unit ≤ℤ pos 17179870 }
        ensures { result ≡ with_unit self unit }
    {
        Window { unit, ..self }
    }
}

// The greatest extent, a millimetre at least.
fn most_of(x: Span, y: Span, z: Span) -> i64
    ensures value { result ≡ most_of x y z }
    ensures most { IsMost result }
{
    x.size().max(y.size()).max(z.size().max(1000))
}

// The extent of an axis, at least a quarter of the greatest.
fn grown(span: Span, most: i64) -> i64
    requires most { IsMost most }
    ensures value { result ≡ grown span most }
    ensures from_size { size span ≤ℤ result }
    ensures from_zero { pos 0 ≤ℤ result }
    ensures to_most { result ≤ℤ pos 2000000000 }
{
    span.size().max(quotient(most, 4))
}

// Where the window begins on an axis.
fn low_of(span: Span, most: i64) -> i64
    requires most { IsMost most }
    ensures value { result ≡ low_of span most }
    ensures edge { IsEdge result }
{
    span.low() - quotient(grown(span, most) - span.size(), 2) - quotient(most, 16)
}

// How far the window extends on an axis.
fn full_of(span: Span, most: i64) -> i64
    requires most { IsMost most }
    ensures value { result ≡ full_of span most }
    ensures from_zero { pos 0 ≤ℤ result }
    ensures to_most { result ≤ℤ pos 4000000000 }
{
    grown(span, most) + 2 * quotient(most, 16)
}

/// The longer of the two sums of extents that stand side by side or one above the other.
pub(crate) fn longest(x: i64, y: i64, z: i64) -> i64
    requires x { IsSize x }
    requires y { IsSize y }
    requires z { IsSize z }
    ensures value { result ≡ longest x y z }
    ensures from_zero { pos 0 ≤ℤ result }
    ensures to_most { result ≤ℤ pos 17179869184 }
{
    (x + y).max(y + z)
}

// The micrometres of a unit of the picture.
fn grain_of(longest: i64) -> Unit
    ensures value { result ≡ grain_of longest }
    ensures fine { result ≤ℤ pos 1000 }
{
    Unit::new(if longest <= 12_000_000 {
        1
    } else if longest <= 120_000_000 {
        10
    } else if longest <= 1_200_000_000 {
        100
    } else {
        1000
    })
}

// The unit of marks and texts, of these extents in micrometres and this grain.
fn unit_of(x: i64, y: i64, z: i64, grain: Unit) -> Unit
    requires x { IsSize x }
    requires y { IsSize y }
    requires z { IsSize z }
    ensures value { result ≡ unit_of x y z grain }
    ensures slim { result ≤ℤ pos 17179870 }
{
    let grain = grain.get();
    let longest = longest(quotient(x, grain), quotient(y, grain), quotient(z, grain));
    Unit::new(quotient(longest, 1000).max(1))
}

/// The window round these spans.
pub(crate) fn window_of(x: Span, y: Span, z: Span) -> Window
    ensures { result ≡ window_of x y z }
{
    let most = most_of(x, y, z);
    let wide = full_of(x, most);
    let deep = full_of(y, most);
    let high = full_of(z, most);
    let grain = grain_of(longest(wide, deep, high));
    Window {
        low: Point::new(low_of(x, most), low_of(y, most), low_of(z, most)),
        full: Point::new(wide, deep, high),
        grain,
        unit: unit_of(wide, deep, high, grain),
    }
}
