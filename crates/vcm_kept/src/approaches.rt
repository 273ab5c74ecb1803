//! Points that are approached and left.

ghost use Rattle.std.specs.Prelude.{◌≡◌, ◌++◌, ◌∷◌, [], map, pos, OnOk, IfOk, List};
ghost use Rattle.vcm_forms.specs.declared.statement.Form.TheVariants as form;
ghost use Rattle.vcm_templates.specs.Templates.{stands, remarks, raise as raises, set as sets, elsewhere, ends, untried_point};
ghost use Rattle.vcm_templates.specs.declared.carried.Carried.TheVariants as carried;
ghost use Rattle.vcm_remarks.specs.declared.remark.Remark.TheVariants.{Approached};
ghost use Rattle.vcm_expr.specs.Source.{Plain};
ghost use Rattle.vcm_templates.specs.Carried.{carried_name, carried_target};
ghost use Rattle.vcm_templates.specs.Expressions.{number as number_of, both as both_of};
ghost use Rattle.vcm_kept.specs.Guarding.{is_nominal, direction_of, direction_in, approaches_feature, halts_along, slants_or};
ghost use Rattle.vcm_kept.specs.Places.{stands_there, loses_track, kept_frames, has_place, approach_asks, halt_asks, along, ahead, added, before, left_behind, approaches_known, approaches_by, approaches, halts_known, halts_by, halts, slants, keeps_setting, length_names, declares_kept, declares_slanted};

use crate::places::{
    approach_asks, ask_point, copied, halt_asks, has_place, lose_track, set_length, step_at,
};
use crate::points::{direction_of, is_nominal};
use crate::text::Text;
use std::alloc::Global;
use vcm_events::{join, pair};
use vcm_expr::{BinaryOp, Expr, Names};
use vcm_forms::{Coordinates, Form, Offset};
use vcm_items::VariableName;
use vcm_num::{Axis, Items, Kind, NoMemory};
use vcm_remarks::Remark;
use vcm_spec::Setting;
use vcm_templates::{
    Carried, Guarded, IMPLICIT, Item, Length, both, elsewhere, end, number, raise, remark,
    set_number, stand, untried_point,
};

// So many thousandths of a length.
fn along(alloc: Global, length: Option<Expr>) -> Result<Option<Expr>, NoMemory>
    ensures { IfOk result (λ e. e ≡ along length) }
{
    match length {
        Some(length) => join(alloc, BinaryOp::Div, &length, &Expr::leaf(number(1000))),
        None => Ok(None),
    }
}

// How far the tip's centre lies before a point on one axis.
fn ahead(alloc: Global, length: Length, component: &Expr) -> Result<Option<Expr>, NoMemory>
    ensures { IfOk result (λ e. e ≡ ahead length component.now) }
{
    let distance = pair(alloc, BinaryOp::Add, length.term(), Length::Tip.term())?;
    let product = join(alloc, BinaryOp::Mul, &distance, component)?;
    along(alloc, product)
}

// A coordinate with this added.
fn added(alloc: Global, first: &Expr, second: Option<Expr>) -> Result<Option<Expr>, NoMemory>
    ensures { IfOk result (λ e. e ≡ added first.now second) }
{
    match second {
        Some(second) => join(alloc, BinaryOp::Add, first, &second),
        None => Ok(None),
    }
}

// The place before a point.
fn before(
    alloc: Global,
    length: Length,
    place: &Coordinates,
    direction: &Coordinates,
) -> Result<Option<Coordinates>, NoMemory>
    ensures { IfOk result (λ p. p ≡ before length place.now direction.now) }
{
    let x = added(alloc, &place.x, ahead(alloc, length, &direction.x)?)?;
    let y = added(alloc, &place.y, ahead(alloc, length, &direction.y)?)?;
    let z = added(alloc, &place.z, ahead(alloc, length, &direction.z)?)?;
    Ok(step_at(x, y, z))
}

// Whether the probe stands where the machine's does, behind a point that is approached.
fn leave_place(out: &mut Vec<Guarded>, line: u32, there: bool) -> Result<(), NoMemory>
    ensures { OnOk result (out.new.items ≡ out.old.items ++ remarks line 0 (form.Assignment (carried_target carried.Place) (Plain (number_of (stands_there there)))) Approached ∷ []) }
{
    let value = if there { number(1) } else { number(0) };
    let stands = Form::Assignment(Carried::Place.target(), Expr::leaf(value));
    remark(out, line, 0, stands, Remark::Approached)
}

// A point is counted that is no measured one.
fn count_left(alloc: Global, out: &mut Vec<Guarded>, line: u32) -> Result<(), NoMemory>
    ensures { OnOk result (out.new.items ≡ out.old.items ++ raises line carried.Points (pos 1) ∷ sets line carried.Single (Plain (number_of (pos 0))) ∷ []) }
{
    raise(alloc, out, line, Carried::Points, 1)?;
    set_number(out, line, Carried::Single, 0)
}

// Elsewhere it isn't tried.
fn end_point(alloc: Global, out: &mut Vec<Guarded>, line: u32) -> Result<(), NoMemory>
    ensures { OnOk result (out.new.items ≡ out.old.items ++ elsewhere line ∷ (untried_point line ++ ends line ∷ [])) }
{
    elsewhere(out, line)?;
    untried_point(alloc, out, line)?;
    end(out, line)
}

// It is told, and elsewhere it isn't tried.
fn end_left(alloc: Global, out: &mut Vec<Guarded>, line: u32, there: bool) -> Result<(), NoMemory>
    ensures { OnOk result (out.new.items ≡ out.old.items
        ++ remarks line 0 (form.Assignment (carried_target carried.Place) (Plain (number_of (stands_there there)))) Approached ∷ elsewhere line ∷ (untried_point line ++ ends line ∷ [])) }
{
    leave_place(out, line, there)?;
    end_point(alloc, out, line)
}

// Behind a point that is approached, and left where the probe's place is known.
#[tactic(auto, unfolding(crate::specs::Places::left_behind))]
fn leave_behind(
    alloc: Global,
    out: &mut Vec<Guarded>,
    steps: bool,
    line: u32,
    there: bool,
) -> Result<(), NoMemory>
    ensures { OnOk result (out.new.items ≡ out.old.items ++ left_behind steps line there) }
{
    count_left(alloc, out, line)?;
    lose_track(out, steps, line)?;
    end_left(alloc, out, line, there)
}

// A point that is approached from one place and left to another.
#[tactic(auto, unfolding(crate::specs::Places::approaches_known))]
fn approach_known(
    alloc: Global,
    out: &mut Vec<Guarded>,
    steps: bool,
    line: u32,
    names: &Names,
    asked: Expr,
    place: &Coordinates,
    first: Coordinates,
    second: Coordinates,
) -> Result<(), NoMemory>
    ensures { OnOk result (out.new.items ≡ out.old.items ++ approaches_known steps line names.now asked place.now first second) }
{
    ask_point(alloc, out, line, names, asked, place)?;
    stand(out, line, 0, Form::Move(first))?;
    stand(out, line, 0, Form::Move(second))?;
    leave_behind(alloc, out, steps, line, true)
}

// The same, if there are such places.
fn approach_by(
    alloc: Global,
    out: &mut Vec<Guarded>,
    steps: bool,
    line: u32,
    names: &Names,
    asked: Expr,
    place: &Coordinates,
    first: Option<Coordinates>,
    second: Option<Coordinates>,
) -> Result<(), NoMemory>
    ensures { OnOk result (out.new.items ≡ out.old.items ++ approaches_by steps line names.now asked place.now first second) }
{
    match (first, second) {
        (Some(first), Some(second)) => {
            approach_known(alloc, out, steps, line, names, asked, place, first, second)
        }
        _ => untried_point(alloc, out, line),
    }
}

// A point with its direction, where this is known.
fn approach_where(
    alloc: Global,
    out: &mut Vec<Guarded>,
    steps: bool,
    line: u32,
    names: &Names,
    asked: Expr,
    place: &Coordinates,
    direction: &Coordinates,
) -> Result<(), NoMemory>
    ensures { OnOk result (out.new.items ≡ out.old.items ++ approaches steps line names.now asked place.now direction.now) }
{
    if !has_place(alloc, names, place)? {
        return untried_point(alloc, out, line);
    }
    let first = before(alloc, Length::Approach, place, direction)?;
    let second = before(alloc, Length::Retract, place, direction)?;
    approach_by(alloc, out, steps, line, names, asked, place, first, second)
}

// A point that is approached at a place.
#[tactic(auto, unfolding(crate::specs::Places::halts_known))]
fn halt_known(
    alloc: Global,
    out: &mut Vec<Guarded>,
    steps: bool,
    line: u32,
    names: &Names,
    asked: Expr,
    place: &Coordinates,
    first: Coordinates,
) -> Result<(), NoMemory>
    ensures { OnOk result (out.new.items ≡ out.old.items ++ halts_known steps line names.now asked place.now first) }
{
    ask_point(alloc, out, line, names, asked, place)?;
    stand(out, line, 0, Form::Move(first))?;
    leave_behind(alloc, out, steps, line, false)
}

// The same, if there is such a place.
fn halt_by(
    alloc: Global,
    out: &mut Vec<Guarded>,
    steps: bool,
    line: u32,
    names: &Names,
    asked: Expr,
    place: &Coordinates,
    first: Option<Coordinates>,
) -> Result<(), NoMemory>
    ensures { OnOk result (out.new.items ≡ out.old.items ++ halts_by steps line names.now asked place.now first) }
{
    match first {
        Some(first) => halt_known(alloc, out, steps, line, names, asked, place, first),
        None => untried_point(alloc, out, line),
    }
}

// A point that is approached alone, with its direction.
fn halt(
    alloc: Global,
    out: &mut Vec<Guarded>,
    steps: bool,
    line: u32,
    names: &Names,
    asked: Expr,
    place: &Coordinates,
    direction: &Coordinates,
) -> Result<(), NoMemory>
    ensures { OnOk result (out.new.items ≡ out.old.items ++ halts steps line names.now asked place.now direction.now) }
{
    if !has_place(alloc, names, place)? {
        return untried_point(alloc, out, line);
    }
    let first = before(alloc, Length::Approach, place, direction)?;
    halt_by(alloc, out, steps, line, names, asked, place, first)
}

// A point that is approached alone, along this direction.
fn halt_given(
    alloc: Global,
    out: &mut Vec<Guarded>,
    steps: bool,
    line: u32,
    names: &Names,
    place: &Coordinates,
    axis: Axis,
) -> Result<(), NoMemory>
    ensures { OnOk result (out.new.items ≡ out.old.items ++ halts steps line names.now halt_asks place.now (direction_of axis)) }
{
    let asked = halt_asks(alloc)?;
    let direction = direction_of(alloc, axis)?;
    halt(alloc, out, steps, line, names, asked, place, &direction)
}

// What has to be known for a point that is approached alone, along the direction of the feature at an index.
fn declared_asks(alloc: Global, index: u16) -> Result<Expr, NoMemory>
    ensures { IfOk result (λ e. e ≡ both_of halt_asks (is_nominal index)) }
{
    both(alloc, &halt_asks(alloc)?, &is_nominal(alloc, index)?)
}

// A point that is approached alone, along the direction of the feature at an index.
fn halt_declared(
    alloc: Global,
    out: &mut Vec<Guarded>,
    steps: bool,
    line: u32,
    names: &Names,
    place: &Coordinates,
    index: u16,
) -> Result<(), NoMemory>
    ensures { OnOk result (out.new.items ≡ out.old.items ++ halts steps line names.now (both_of halt_asks (is_nominal index)) place.now (direction_in index)) }
{
    let asked = declared_asks(alloc, index)?;
    let direction = direction_in(index);
    halt(alloc, out, steps, line, names, asked, place, &direction)
}

/// A point that is approached alone, along this direction, or along that of the feature that is measured where none is written.
pub(crate) fn halt_along(
    alloc: Global,
    out: &mut Vec<Guarded>,
    steps: bool,
    line: u32,
    names: &Names,
    place: &Coordinates,
    given: Option<Axis>,
    index: Option<u16>,
) -> Result<(), NoMemory>
    ensures { OnOk result (out.new.items ≡ out.old.items ++ halts_along steps line names.now place.now given index) }
{
    match (given, index) {
        (Some(axis), _) => halt_given(alloc, out, steps, line, names, place, axis),
        (None, Some(index)) => halt_declared(alloc, out, steps, line, names, place, index),
        (None, None) => untried_point(alloc, out, line),
    }
}

// Three lengths as a place.
fn place_of(alloc: Global, x: &Offset, y: &Offset, z: &Offset) -> Result<Coordinates, NoMemory>
    ensures { IfOk result (λ p. p ≡ record { x = x.now.length; y = y.now.length; z = z.now.length }) }
{
    let x = copied(alloc, &x.length)?;
    let y = copied(alloc, &y.length)?;
    let z = copied(alloc, &z.length)?;
    Ok(Coordinates { x, y, z })
}

// A slanted point, with its direction.
fn approach(
    alloc: Global,
    out: &mut Vec<Guarded>,
    steps: bool,
    line: u32,
    names: &Names,
    place: &Coordinates,
    direction: &Coordinates,
) -> Result<(), NoMemory>
    ensures { OnOk result (out.new.items ≡ out.old.items ++ approaches steps line names.now approach_asks place.now direction.now) }
{
    let asked = approach_asks(alloc)?;
    approach_where(alloc, out, steps, line, names, asked, place, direction)
}

// Six lengths as a place and a direction.
fn directed(
    alloc: Global,
    x: &Offset,
    y: &Offset,
    z: &Offset,
    i: &Offset,
    j: &Offset,
    k: &Offset,
) -> Result<(Coordinates, Coordinates), NoMemory>
    ensures { IfOk result (λ p. p ≡ (record { x = x.now.length; y = y.now.length; z = z.now.length }, record { x = i.now.length; y = j.now.length; z = k.now.length })) }
{
    let place = place_of(alloc, x, y, z)?;
    let direction = place_of(alloc, i, j, k)?;
    Ok((place, direction))
}

// A slanted point, by its three coordinates and the three components of its direction; what has one length alone says how wide the tip is.
fn slant(
    alloc: Global,
    out: &mut Vec<Guarded>,
    slanted: bool,
    steps: bool,
    line: u32,
    names: &Names,
    legs: &[Offset],
) -> Result<(), NoMemory>
    ensures { OnOk result (out.new.items ≡ out.old.items ++ slants slanted steps line names.now legs.now) }
{
    if !slanted {
        return Ok(());
    }
    match legs {
        [width] => set_length(out, line, Length::Tip, copied(alloc, &width.length)?),
        [x, y, z, i, j, k] => {
            let directed = directed(alloc, x, y, z, i, j, k)?;
            approach(alloc, out, steps, line, names, &directed.0, &directed.1)
        }
        _ => Ok(()),
    }
}

// The direction of the feature at an index, as it is carried.
fn direction_in(index: u16) -> Coordinates
    ensures { result ≡ direction_in index }
{
    Coordinates {
        x: Expr::leaf(Item::AlongX.term(index)),
        y: Expr::leaf(Item::AlongY.term(index)),
        z: Expr::leaf(Item::AlongZ.term(index)),
    }
}

// What has to be known for a point along the direction of the feature at an index.
fn feature_asks(alloc: Global, index: u16) -> Result<Expr, NoMemory>
    ensures { IfOk result (λ e. e ≡ both_of approach_asks (is_nominal index)) }
{
    both(alloc, &approach_asks(alloc)?, &is_nominal(alloc, index)?)
}

// A point along the direction of the feature at an index.
fn approach_along(
    alloc: Global,
    out: &mut Vec<Guarded>,
    steps: bool,
    line: u32,
    names: &Names,
    place: &Coordinates,
    index: u16,
) -> Result<(), NoMemory>
    ensures { OnOk result (out.new.items ≡ out.old.items ++ approaches steps line names.now (both_of approach_asks (is_nominal index)) place.now (direction_in index)) }
{
    let asked = feature_asks(alloc, index)?;
    let direction = direction_in(index);
    approach_where(alloc, out, steps, line, names, asked, place, &direction)
}

// A point that is approached and left along the direction of the feature that is measured.
fn approach_feature(
    alloc: Global,
    out: &mut Vec<Guarded>,
    steps: bool,
    line: u32,
    names: &Names,
    place: &Coordinates,
    index: Option<u16>,
) -> Result<(), NoMemory>
    ensures { OnOk result (out.new.items ≡ out.old.items ++ approaches_feature steps line names.now place.now index) }
{
    match index {
        Some(index) => approach_along(alloc, out, steps, line, names, place, index),
        None => untried_point(alloc, out, line),
    }
}

// The same, by its three coordinates.
fn approach_three(
    alloc: Global,
    out: &mut Vec<Guarded>,
    steps: bool,
    line: u32,
    names: &Names,
    index: Option<u16>,
    x: &Offset,
    y: &Offset,
    z: &Offset,
) -> Result<(), NoMemory>
    ensures { OnOk result (out.new.items ≡ out.old.items ++ approaches_feature steps line names.now (record { x = x.now.length; y = y.now.length; z = z.now.length }) index) }
{
    let place = place_of(alloc, x, y, z)?;
    approach_feature(alloc, out, steps, line, names, &place, index)
}

/// A slanted point, or one along the direction of its feature, which is said by its three coordinates alone.
pub(crate) fn slant_or(
    alloc: Global,
    out: &mut Vec<Guarded>,
    text: Text,
    line: u32,
    names: &Names,
    index: Option<u16>,
    legs: &[Offset],
) -> Result<(), NoMemory>
    ensures { OnOk result (out.new.items ≡ out.old.items ++ slants_or text line names.now index legs.now) }
{
    match legs {
        [x, y, z] => approach_three(alloc, out, text.steps, line, names, index, x, y, z),
        _ => slant(alloc, out, text.slants, text.steps, line, names, legs),
    }
}

/// The length of a setting, where a text has points that are approached and left.
pub(crate) fn keep_setting(
    alloc: Global,
    out: &mut Vec<Guarded>,
    slanted: bool,
    line: u32,
    which: Setting,
    value: &Expr,
) -> Result<(), NoMemory>
    ensures { OnOk result (out.new.items ≡ out.old.items ++ keeps_setting slanted line which value.now) }
{
    if !slanted {
        return Ok(());
    }
    match which {
        Setting::Approach => set_length(out, line, Length::Approach, copied(alloc, value)?),
        Setting::Retract => set_length(out, line, Length::Retract, copied(alloc, value)?),
        Setting::Search | Setting::Depth => Ok(()),
    }
}

// ---- declarations

/// The names of lengths.
#[tactic(auto, unfolding(crate::specs::Places::length_names))]
pub(crate) fn length_names(
    alloc: Global,
    lengths: &[Length],
) -> Result<Items<VariableName>, NoMemory>
    ensures { IfOk result (λ names. names ≡ length_names lengths.now) }
{
    let mut names = Items::new(alloc);
    for one in lengths {
        names.push(one.variable())?;
    }
    Ok(names)
}

// The numbers of the frames of places that are kept.
fn frame_names(alloc: Global) -> Result<Items<VariableName>, NoMemory>
    ensures { IfOk result (λ names. names ≡ map carried_name kept_frames) }
{
    let mut names = Items::new(alloc);
    names.push(Carried::HomeFrame.variable())?;
    names.push(Carried::TargetFrame.variable())?;
    names.push(Carried::ProbeFrame.variable())?;
    Ok(names)
}

/// The variables of places that are kept are declared.
#[tactic(auto, unfolding(crate::specs::Places::declares_kept))]
pub(crate) fn declare_kept(
    alloc: Global,
    out: &mut Vec<Guarded>,
    spots: bool,
) -> Result<(), NoMemory>
    ensures { OnOk result (out.new.items ≡ out.old.items ++ declares_kept spots) }
{
    if !spots {
        return Ok(());
    }
    let all = [
        Length::HomeX,
        Length::HomeY,
        Length::HomeZ,
        Length::TargetX,
        Length::TargetY,
        Length::TargetZ,
        Length::ProbeX,
        Length::ProbeY,
        Length::ProbeZ,
    ];
    let names = length_names(alloc, &all)?;
    stand(out, 1, IMPLICIT, Form::Declaration(Kind::Real, names))?;
    let frames = frame_names(alloc)?;
    stand(out, 1, IMPLICIT, Form::Declaration(Kind::Int, frames))
}

/// Those of points that are approached and left are.
#[tactic(auto, unfolding(crate::specs::Places::declares_slanted))]
pub(crate) fn declare_slanted(
    alloc: Global,
    out: &mut Vec<Guarded>,
    slanted: bool,
) -> Result<(), NoMemory>
    ensures { OnOk result (out.new.items ≡ out.old.items ++ declares_slanted slanted) }
{
    if !slanted {
        return Ok(());
    }
    let all = [Length::Approach, Length::Retract, Length::Tip];
    let names = length_names(alloc, &all)?;
    stand(out, 1, IMPLICIT, Form::Declaration(Kind::Real, names))
}
