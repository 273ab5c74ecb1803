//! The ticks at the frames of views, and the lines through the origin.

ghost use Rattle.std.specs.Prelude.{◌≡◌, ◌<◌, ◌++◌, ◌∷◌, [], pos, OnOk, IfOk};
ghost use Rattle.std.specs.Ordering.{int_eq};
ghost use Rattle.vcm_num.specs.Point.{point};
ghost use Rattle.vcm_picture.specs.View.{right_axis, up_axis, spot_of};
ghost use Rattle.vcm_svg.specs.Pieces.{texts, joined};
ghost use Rattle.vcm_sheet.specs.Painted.{line_text};
ghost use Rattle.vcm_sheet.specs.Sayings.{Adds, text_tag, text_with};
ghost use Rattle.vcm_sheet.specs.Ticks.{ruler_of, ticks_of, ticks_in, axis_of, has_zero, has_origin, tick_words, tick_said, ticks_said};

use crate::places::{moved, units};
use crate::ticks::{Ruler, tick_step, ticks_of};
use std::alloc::Global;
use std::marker::Model;
use vcm_num::{NoMemory, Point};
use vcm_picture::{Scope, Window, right_axis, spot_of, up_axis};
use vcm_svg::{Fragment, Spot, Unit, put, quotient};

/// The ticks of the three axes, in micrometres.
#[derive(Drop)]
pub(crate) struct AxisTicks {
    x: Vec<i64>,
    y: Vec<i64>,
    z: Vec<i64>,
}

impl Model for AxisTicks {
    ghost use Rattle.vcm_sheet.specs.Ticks.{Ticking};

    ghost Value = { Ticking };

    ghost view = { λ t. record { x = t.x.items; y = t.y.items; z = t.z.items } };
}

impl AxisTicks {
    // The ticks of an axis.
    fn of(&self, axis: usize) -> &[i64]
        ensures { result.now ≡ axis_of self.now axis }
    {
        match axis {
            0 => self.x.as_slice(),
            1 => self.y.as_slice(),
            _ => self.z.as_slice(),
        }
    }
}

// The ticks of an axis of a window.
fn axis_ticks(alloc: Global, window: Window, axis: usize) -> Result<Vec<i64>, NoMemory>
    requires { axis < 3 }
    ensures { IfOk result (λ v. v.items ≡ ticks_of (ruler_of window axis)) }
{
    let low = window.low(axis);
    let high = low.saturating_add(window.full(axis));
    let step = tick_step(units(units(60, window.unit()), window.grain()));
    ticks_of(alloc, Ruler { low, high, step })
}

/// The ticks of a window, 60 units apart at least.
pub(crate) fn ticks_in(alloc: Global, window: Window) -> Result<AxisTicks, NoMemory>
    ensures { IfOk result (λ t. t ≡ ticks_in window) }
{
    let x = axis_ticks(alloc, window, 0)?;
    let y = axis_ticks(alloc, window, 1)?;
    let z = axis_ticks(alloc, window, 2)?;
    Ok(AxisTicks { x, y, z })
}

// How far to the right in a view a tick of the axis to the right stands: where a point with this coordinate does.
fn across(scope: Scope, at: i64) -> i64
    ensures { result ≡ (spot_of scope (point at at at)).x }
{
    spot_of(scope, Point::new(at, at, at)).spot().x
}

// How far down in a view a tick of the axis up stands.
fn down(scope: Scope, at: i64) -> i64
    ensures { result ≡ (spot_of scope (point at at at)).y }
{
    spot_of(scope, Point::new(at, at, at)).spot().y
}

// Appends a straight line of a class.
#[tactic(auto, using(crate::proofs::Signed::signed), unfolding(crate::specs::Painted::line_text))]
fn put_line(out: &mut Vec<u8>, class: &[u8], from: Spot, to: Spot) -> Result<(), NoMemory>
    ensures { OnOk result (out.new.items ≡ out.old.items ++ line_text class.now from to) }
{
    put(
        out,
        &[
            Fragment::Text(b"<path class=\""),
            Fragment::Text(class),
            Fragment::Text(b"\" d=\"M"),
            Fragment::Number(from.x),
            Fragment::Text(b" "),
            Fragment::Number(from.y),
            Fragment::Text(b"L"),
            Fragment::Number(to.x),
            Fragment::Text(b" "),
            Fragment::Number(to.y),
            Fragment::Text(b"\"/>\n"),
        ],
    )
}

// Appends the tag of a text with these attributes.
fn put_tag(out: &mut Vec<u8>, attributes: &[u8], unit: Unit, spot: Spot) -> Result<(), NoMemory>
    ensures { OnOk result (out.new.items ≡ out.old.items ++ text_tag spot unit attributes.now) }
{
    put(
        out,
        &[
            Fragment::Text(b"<text transform=\"matrix("),
            Fragment::Number(unit.get()),
            Fragment::Text(b" 0 0 "),
            Fragment::Number(unit.get()),
            Fragment::Text(b" "),
            Fragment::Number(spot.x),
            Fragment::Text(b" "),
            Fragment::Number(spot.y),
            Fragment::Text(b")\""),
            Fragment::Text(attributes),
            Fragment::Text(b">"),
        ],
    )
}

/// Appends a text with these attributes.
#[tactic(auto, unfolding(crate::specs::Sayings::text_with))]
pub(crate) fn put_words(
    out: &mut Vec<u8>,
    attributes: &[u8],
    unit: Unit,
    spot: Spot,
    words: &[Fragment],
) -> Result<(), NoMemory>
    ensures { OnOk result (out.new.items ≡ out.old.items ++ text_with spot unit attributes.now (texts words.now)) }
{
    put_tag(out, attributes, unit, spot)?;
    put(out, words)?;
    put(out, &[Fragment::Text(b"</text>\n")])
}

// Appends a length at a tick: whole millimetres without decimals.
fn put_length(
    out: &mut Vec<u8>,
    attributes: &[u8],
    unit: Unit,
    spot: Spot,
    at: i64,
) -> Result<(), NoMemory>
    ensures { OnOk result (out.new.items ≡ out.old.items ++ text_with spot unit attributes.now (joined (tick_words at ∷ []))) }
{
    if at.rem_euclid(1000) == 0 {
        put_words(
            out,
            attributes,
            unit,
            spot,
            &[Fragment::Number(quotient(at, 1000))],
        )
    } else {
        put_words(out, attributes, unit, spot, &[Fragment::Length(at)])
    }
}

// Appends a tick below a view.
fn put_tick_across(out: &mut Vec<u8>, scope: Scope, corner: Spot, tick: i64) -> Result<(), NoMemory>
    ensures { OnOk result (Adds (tick_said tick) out.old.items out.new.items) }
{
    let unit = scope.unit();
    let foot = moved(corner, across(scope, tick), scope.high().get());
    put_line(out, b"k", foot, moved(foot, 0, units(5, unit)))?;
    let at = moved(foot, 0, units(14, unit));
    put_length(out, b" class=\"t\"", unit, at, tick)
}

// Appends the ticks below a view.
fn put_across(out: &mut Vec<u8>, scope: Scope, corner: Spot, ticks: &[i64]) -> Result<(), NoMemory>
    ensures { OnOk result (Adds (ticks_said ticks.now) out.old.items out.new.items) }
{
    for tick in ticks {
        put_tick_across(out, scope, corner, *tick)?;
    }
    Ok(())
}

// Appends a tick to the left of a view.
fn put_tick_up(out: &mut Vec<u8>, scope: Scope, corner: Spot, tick: i64) -> Result<(), NoMemory>
    ensures { OnOk result (Adds (tick_said tick) out.old.items out.new.items) }
{
    let unit = scope.unit();
    let foot = moved(corner, 0, down(scope, tick));
    put_line(out, b"k", moved(foot, units(-5, unit), 0), foot)?;
    let at = moved(foot, units(-7, unit), units(3, unit));
    put_length(out, b" class=\"r\"", unit, at, tick)
}

// Appends the ticks to the left of a view.
fn put_up(out: &mut Vec<u8>, scope: Scope, corner: Spot, ticks: &[i64]) -> Result<(), NoMemory>
    ensures { OnOk result (Adds (ticks_said ticks.now) out.old.items out.new.items) }
{
    for tick in ticks {
        put_tick_up(out, scope, corner, *tick)?;
    }
    Ok(())
}

/// Appends the ticks of a view that stands at a place of the sheet.
pub(crate) fn put_ticks(
    out: &mut Vec<u8>,
    scope: Scope,
    corner: Spot,
    ticks: &AxisTicks,
) -> Result<(), NoMemory>
    ensures { OnOk result (Adds (ticks_said (axis_of ticks.now (right_axis scope.view)) ++ ticks_said (axis_of ticks.now (up_axis scope.view))) out.old.items out.new.items) }
{
    put_across(out, scope, corner, ticks.of(right_axis(scope.view())))?;
    put_up(out, scope, corner, ticks.of(up_axis(scope.view())))
}

// Whether a tick is at the origin.
fn is_zero(at: i64) -> bool
    ensures { result ≡ int_eq at (pos 0) }
{
    at == 0
}

// Whether the origin is among ticks.
fn has_zero(ticks: &[i64]) -> bool
    ensures { result ≡ has_zero ticks.now }
{
    ticks.iter().any(|tick| is_zero(*tick))
}

/// Whether a line through the origin stands in a view of a sheet.
pub(crate) fn has_origin(ticks: &AxisTicks) -> bool
    ensures { result ≡ has_origin ticks.now }
{
    has_zero(ticks.of(0)) || has_zero(ticks.of(1)) || has_zero(ticks.of(2))
}

// Appends the line through the origin from the upper to the lower side of a view, if it lies in there.
fn put_upright(out: &mut Vec<u8>, scope: Scope, ticks: &[i64]) -> Result<(), NoMemory>
    ensures { OnOk result (Adds [] out.old.items out.new.items) }
{
    if !has_zero(ticks) {
        return Ok(());
    }
    let x = across(scope, 0);
    let foot = scope.high().get();
    put_line(out, b"z", Spot { x, y: 0 }, Spot { x, y: foot })
}

// Appends the line through the origin from the left to the right side of a view, if it lies in there.
fn put_level(out: &mut Vec<u8>, scope: Scope, ticks: &[i64]) -> Result<(), NoMemory>
    ensures { OnOk result (Adds [] out.old.items out.new.items) }
{
    if !has_zero(ticks) {
        return Ok(());
    }
    let y = down(scope, 0);
    let right = scope.wide().get();
    put_line(out, b"z", Spot { x: 0, y }, Spot { x: right, y })
}

/// Appends the lines through the origin that lie in a view.
pub(crate) fn put_axes(out: &mut Vec<u8>, scope: Scope, ticks: &AxisTicks) -> Result<(), NoMemory>
    ensures { OnOk result (Adds [] out.old.items out.new.items) }
{
    put_upright(out, scope, ticks.of(right_axis(scope.view())))?;
    put_level(out, scope, ticks.of(up_axis(scope.view())))
}
