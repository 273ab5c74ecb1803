//! Outlines of paths.

ghost use Rattle.std.specs.Prelude.{◌≡◌, ◌++◌, OnOk};
ghost use Rattle.vcm_svg.specs.declared.outlines.Outline.TheVariants.{Dash};
ghost use Rattle.vcm_svg.specs.Outlines.{outline_text, rect_outline, square_round, circle, cross, bar_line};

use crate::pieces::{Fragment, put};
use crate::ranges::{Area, Length, Site};
use crate::rect::Spot;
use vcm_num::NoMemory;

/// The outline of a path, in units of the picture.
#[derive(Clone, Copy)]
pub enum Outline {
    /// A rectangle of this corner, width and height.
    Rectangle(Spot, i64, i64),
    /// A circle with this place at its left, of this radius and width.
    Circle(Spot, i64, i64),
    /// Two lines across one another in a square of this corner and width.
    Cross(Spot, i64),
    /// A straight line between two places.
    Line(Spot, Spot),
    /// A line of a length to the right.
    Dash(Spot, i64),
    /// A line of a length to the right, between two that are so high. The left one begins at this place.
    Bar(Spot, i64, i64),
}

/// The outline of a rectangle.
pub fn rect_outline(area: Area) -> Outline
    ensures { result ≡ rect_outline area }
{
    Outline::Rectangle(area.corner(), area.wide(), area.high())
}

/// The outline of a square round a place, so far from it on each side.
pub fn square_round(at: Site, half: Length) -> Outline
    ensures { result ≡ square_round at half }
{
    Outline::Rectangle(at.back_by(half), half.twice(), half.twice())
}

/// A circle of this radius round a place.
pub fn circle(at: Site, radius: Length) -> Outline
    ensures { result ≡ circle at radius }
{
    Outline::Circle(at.left_by(radius), radius.get(), radius.twice())
}

/// A cross at a place, whose lines end so far from it to each side.
pub fn cross(at: Site, radius: Length) -> Outline
    ensures { result ≡ cross at radius }
{
    Outline::Cross(at.back_by(radius), radius.twice())
}

/// A line of a length to the right.
pub(crate) fn dash(at: Site, long: Length) -> Outline
    ensures { result ≡ Dash at long }
{
    Outline::Dash(at.spot(), long.get())
}

/// A bar of a length with a line so high up at each end.
pub(crate) fn bar_line(at: Site, rise: Length, long: Length) -> Outline
    ensures { result ≡ bar_line at rise long }
{
    Outline::Bar(at.up_by(rise), rise.get(), long.get())
}

/// Appends an outline.
#[tactic(auto, using(crate::proofs::Signed::signed))]
pub fn put_outline(out: &mut Vec<u8>, outline: Outline) -> Result<(), NoMemory>
    ensures { OnOk result (out.new.items ≡ out.old.items ++ outline_text outline) }
{
    match outline {
        Outline::Rectangle(at, wide, high) => put(
            out,
            &[
                Fragment::Text(b"M"),
                Fragment::Number(at.x),
                Fragment::Text(b" "),
                Fragment::Number(at.y),
                Fragment::Text(b"h"),
                Fragment::Number(wide),
                Fragment::Text(b"v"),
                Fragment::Number(high),
                Fragment::Text(b"h"),
                Fragment::Back(wide),
                Fragment::Text(b"z"),
            ],
        ),
        Outline::Circle(at, radius, wide) => put(
            out,
            &[
                Fragment::Text(b"M"),
                Fragment::Number(at.x),
                Fragment::Text(b" "),
                Fragment::Number(at.y),
                Fragment::Text(b"a"),
                Fragment::Number(radius),
                Fragment::Text(b" "),
                Fragment::Number(radius),
                Fragment::Text(b" 0 1 0 "),
                Fragment::Number(wide),
                Fragment::Text(b" 0a"),
                Fragment::Number(radius),
                Fragment::Text(b" "),
                Fragment::Number(radius),
                Fragment::Text(b" 0 1 0 "),
                Fragment::Back(wide),
                Fragment::Text(b" 0z"),
            ],
        ),
        Outline::Cross(at, wide) => put(
            out,
            &[
                Fragment::Text(b"M"),
                Fragment::Number(at.x),
                Fragment::Text(b" "),
                Fragment::Number(at.y),
                Fragment::Text(b"l"),
                Fragment::Number(wide),
                Fragment::Text(b" "),
                Fragment::Number(wide),
                Fragment::Text(b"m0 "),
                Fragment::Back(wide),
                Fragment::Text(b"l"),
                Fragment::Back(wide),
                Fragment::Text(b" "),
                Fragment::Number(wide),
            ],
        ),
        Outline::Line(from, to) => put(
            out,
            &[
                Fragment::Text(b"M"),
                Fragment::Number(from.x),
                Fragment::Text(b" "),
                Fragment::Number(from.y),
                Fragment::Text(b"L"),
                Fragment::Number(to.x),
                Fragment::Text(b" "),
                Fragment::Number(to.y),
            ],
        ),
        Outline::Dash(at, long) => put(
            out,
            &[
                Fragment::Text(b"M"),
                Fragment::Number(at.x),
                Fragment::Text(b" "),
                Fragment::Number(at.y),
                Fragment::Text(b"h"),
                Fragment::Number(long),
            ],
        ),
        Outline::Bar(at, rise, long) => put(
            out,
            &[
                Fragment::Text(b"M"),
                Fragment::Number(at.x),
                Fragment::Text(b" "),
                Fragment::Number(at.y),
                Fragment::Text(b"v"),
                Fragment::Number(rise),
                Fragment::Text(b"h"),
                Fragment::Number(long),
                Fragment::Text(b"v"),
                Fragment::Back(rise),
            ],
        ),
    }
}
