//! Points and features.

ghost use Rattle.std.specs.Prelude.{◌≡◌, ◌++◌, ◌∷◌, [], pos, Some, None, OnOk, IfOk, List, Result, Ok, Err, if◌then◌else◌};
ghost use Rattle.vcm_expr.specs.Source.{Plain};
ghost use Rattle.vcm_events.specs.Joined.{whole_of};
ghost use Rattle.vcm_program.specs.Titles.{index_of, entered, with_name};
ghost use Rattle.vcm_forms.specs.declared.statement.Form.TheVariants as form;
ghost use Rattle.vcm_templates.specs.declared.carried.Carried.TheVariants as carried;
ghost use Rattle.vcm_templates.specs.declared.carried.Item.TheVariants as items;
ghost use Rattle.vcm_templates.specs.Expressions.{number, both, knows_frame, is_current, are_current, in_frame};
ghost use Rattle.vcm_templates.specs.Templates.{stands, elsewhere, ends, set_item};
ghost use Rattle.vcm_kept.specs.Places.{has_place, loses_track};
ghost use Rattle.vcm_kept.specs.Guarding.{is_declared, is_nominal, is_measured, point, direction_asks, point_goes, own_point, touches_declared, touches_itself, touches_at, touches, halts_along, touches_where, touches_or, measures, touched_once, touched_here, keeps_point, measured_index, leaves_points, counts_points, measured, nominal_where, with_known, direction_of, sets_direction, keeps_direction, declares_direction, features_at, declares_feature, feature_gone, features_in, features};

use crate::approaches::halt_along;
use crate::datums::{declare_bound, unbind};
use crate::places::{
    ask_place, ask_point, has_place, length_asks, lose_track, place_again, point_asks,
};
use std::alloc::Global;
use vcm_events::{pair, whole};
use vcm_expr::{BinaryOp, Expr, Names, Relation};
use vcm_forms::{Coordinates, Form};
use vcm_items::Name;
use vcm_num::{Axis, MOST_NAMES, NoMemory};
use vcm_program::Titles;
use vcm_templates::{
    Carried, Guarded, Item, ask, both, declare_item, elsewhere, end, in_frame, is_current, know,
    lose_item, number, same_as, set, set_item, set_number, stand, touched, untried, untried_point,
    where_known,
};

// The feature's own nominal is known in this frame.
pub(crate) fn is_nominal(alloc: Global, index: u16) -> Result<Expr, NoMemory>
    ensures { IfOk result (λ e. e ≡ is_nominal index) }
{
    same_as(alloc, Item::Nominal.term(index))
}

// And its actual value.
pub(crate) fn is_measured(alloc: Global, index: u16) -> Result<Expr, NoMemory>
    ensures { IfOk result (λ e. e ≡ is_measured index) }
{
    same_as(alloc, Item::Measured.term(index))
}

// What has to be known of the direction of a point.
#[tactic(auto, unfolding(crate::specs::Guarding::direction_asks))]
fn direction_asks(alloc: Global, index: u16, given: Option<Axis>) -> Result<Expr, NoMemory>
    ensures { IfOk result (λ e. e ≡ direction_asks index given) }
{
    let asked = point_asks(alloc)?;
    match given {
        None => both(alloc, &asked, &is_nominal(alloc, index)?),
        Some(_) => {
            let op = BinaryOp::Compare(Relation::NotEqual);
            let declared = pair(alloc, op, Item::Nominal.term(index), number(0))?;
            both(alloc, &asked, &declared)
        }
    }
}

// The point of a measurement of its own.
#[tactic(auto, unfolding(crate::specs::Guarding::point))]
fn put_point(
    out: &mut Vec<Guarded>,
    line: u32,
    expansion: u32,
    label: &Name,
    place: Coordinates,
    given: Option<Axis>,
) -> Result<(), NoMemory>
    ensures { OnOk result (out.new.items ≡ out.old.items ++ point line expansion label.now place given) }
{
    stand(out, line, expansion, Form::Measure(label.copy()))?;
    stand(out, line, expansion, Form::Touch(place, given))?;
    stand(out, line, expansion, Form::MeasureEnd)
}

// A point, and what comes behind it.
#[tactic(auto, unfolding(crate::specs::Guarding::point_goes))]
fn point_goes(
    alloc: Global,
    out: &mut Vec<Guarded>,
    steps: bool,
    line: u32,
    expansion: u32,
    label: &Name,
    place: Coordinates,
    given: Option<Axis>,
) -> Result<(), NoMemory>
    ensures { OnOk result (out.new.items ≡ out.old.items ++ point_goes steps line expansion label.now place given) }
{
    put_point(out, line, expansion, label, place, given)?;
    set(
        out,
        line,
        Carried::Touched,
        Expr::leaf(Carried::Frame.term()),
    )?;
    lose_track(out, steps, line)?;
    touched(alloc, out, line)
}

// A point of a feature that is declared.
#[tactic(auto, unfolding(crate::specs::Guarding::touches_declared))]
fn touch_declared(
    alloc: Global,
    out: &mut Vec<Guarded>,
    steps: bool,
    line: u32,
    expansion: u32,
    names: &Names,
    label: &Name,
    index: u16,
    place: Coordinates,
    given: Option<Axis>,
) -> Result<(), NoMemory>
    ensures { OnOk result (out.new.items ≡ out.old.items ++ touches_declared steps line expansion names.now label.now index place given) }
{
    let asked = direction_asks(alloc, index, given)?;
    ask_point(alloc, out, line, names, asked, &place)?;
    point_goes(alloc, out, steps, line, expansion, label, place, given)
}

// A point of a feature that is declared by this place and direction alone.
#[tactic(auto, unfolding(crate::specs::Guarding::own_point))]
fn own_point(
    alloc: Global,
    out: &mut Vec<Guarded>,
    steps: bool,
    line: u32,
    expansion: u32,
    label: &Name,
    place: Coordinates,
    axis: Axis,
) -> Result<(), NoMemory>
    ensures { OnOk result (out.new.items ≡ out.old.items ++ own_point steps line expansion label.now place axis) }
{
    let again = place_again(alloc, &place)?;
    stand(
        out,
        line,
        expansion,
        Form::Feature(label.copy(), again, axis),
    )?;
    point_goes(alloc, out, steps, line, expansion, label, place, Some(axis))
}

// A point of another feature, which is declared by its own place and direction.
#[tactic(auto, unfolding(crate::specs::Guarding::touches_itself))]
fn touch_itself(
    alloc: Global,
    out: &mut Vec<Guarded>,
    steps: bool,
    line: u32,
    expansion: u32,
    names: &Names,
    label: &Name,
    place: Coordinates,
    given: Option<Axis>,
) -> Result<(), NoMemory>
    ensures { OnOk result (out.new.items ≡ out.old.items ++ touches_itself steps line expansion names.now label.now place given) }
{
    let Some(axis) = given else {
        return untried_point(alloc, out, line);
    };
    ask_point(alloc, out, line, names, point_asks(alloc)?, &place)?;
    own_point(alloc, out, steps, line, expansion, label, place, axis)
}

// A point of the feature that is measured.
fn touch_of(
    alloc: Global,
    out: &mut Vec<Guarded>,
    steps: bool,
    line: u32,
    expansion: u32,
    names: &Names,
    declared: &Titles,
    label: &Name,
    place: Coordinates,
    given: Option<Axis>,
) -> Result<(), NoMemory>
    ensures { OnOk result (out.new.items ≡ out.old.items ++ touches_at steps line expansion names.now label.now place given (index_of declared.now label.now)) }
{
    match index_among(declared, label) {
        Some(index) => {
            touch_declared(
                alloc, out, steps, line, expansion, names, label, index, place, given,
            )
        }
        None => touch_itself(
            alloc, out, steps, line, expansion, names, label, place, given,
        ),
    }
}

// A point of a measurement.
fn touch(
    alloc: Global,
    out: &mut Vec<Guarded>,
    steps: bool,
    line: u32,
    expansion: u32,
    names: &Names,
    declared: &Titles,
    measuring: &Option<Name>,
    place: Coordinates,
    given: Option<Axis>,
) -> Result<(), NoMemory>
    ensures { OnOk result (out.new.items ≡ out.old.items ++ touches steps line expansion names.now declared.now place given measuring.now) }
{
    match measuring {
        Some(label) => touch_labelled(
            alloc, out, steps, line, expansion, names, declared, label, &place, given,
        ),
        None => untried_point(alloc, out, line),
    }
}

// A point of the measurement with this label.
fn touch_labelled(
    alloc: Global,
    out: &mut Vec<Guarded>,
    steps: bool,
    line: u32,
    expansion: u32,
    names: &Names,
    declared: &Titles,
    label: &Name,
    place: &Coordinates,
    given: Option<Axis>,
) -> Result<(), NoMemory>
    ensures { OnOk result (out.new.items ≡ out.old.items ++ touches steps line expansion names.now declared.now place.now given (Some label.now)) }
{
    if has_place(alloc, names, place)? {
        let place = place_again(alloc, place)?;
        touch_of(
            alloc, out, steps, line, expansion, names, declared, label, place, given,
        )
    } else {
        untried_point(alloc, out, line)
    }
}

// A point of that measurement, which is approached alone.
fn halt_labelled(
    alloc: Global,
    out: &mut Vec<Guarded>,
    steps: bool,
    line: u32,
    names: &Names,
    declared: &Titles,
    label: &Name,
    place: &Coordinates,
    given: Option<Axis>,
) -> Result<(), NoMemory>
    ensures { OnOk result (out.new.items ≡ out.old.items ++ halts_along steps line names.now place.now given (index_of declared.now label.now)) }
{
    let index = index_among(declared, label);
    halt_along(alloc, out, steps, line, names, place, given, index)
}

// A point where the way back is known; elsewhere it is approached alone.
#[tactic(auto, unfolding(crate::specs::Guarding::touches_where))]
fn touch_where(
    alloc: Global,
    out: &mut Vec<Guarded>,
    steps: bool,
    line: u32,
    expansion: u32,
    names: &Names,
    declared: &Titles,
    label: &Name,
    place: &Coordinates,
    given: Option<Axis>,
) -> Result<(), NoMemory>
    ensures { OnOk result (out.new.items ≡ out.old.items ++ touches_where steps line expansion names.now declared.now place.now given label.now) }
{
    stand(
        out,
        line,
        0,
        Form::Test(is_current(alloc, Carried::Retract)?),
    )?;
    touch_labelled(
        alloc, out, steps, line, expansion, names, declared, label, place, given,
    )?;
    elsewhere(out, line)?;
    halt_labelled(
        alloc, out, steps, line, names, declared, label, place, given,
    )?;
    end(out, line)
}

/// PTMEAS, in a text where the way back of a point may not be known, or always is where the rest is.
pub(crate) fn touch_or(
    alloc: Global,
    out: &mut Vec<Guarded>,
    halting: bool,
    steps: bool,
    line: u32,
    expansion: u32,
    names: &Names,
    declared: &Titles,
    measuring: &Option<Name>,
    place: Coordinates,
    given: Option<Axis>,
) -> Result<(), NoMemory>
    ensures { OnOk result (out.new.items ≡ out.old.items ++ touches_or halting steps line expansion names.now declared.now place given measuring.now) }
{
    match (halting, measuring) {
        (true, Some(label)) => touch_where(
            alloc, out, steps, line, expansion, names, declared, label, &place, given,
        ),
        _ => touch(
            alloc, out, steps, line, expansion, names, declared, measuring, place, given,
        ),
    }
}

/// The index of a feature or a frame, if it is declared.
pub(crate) fn index_among(titles: &Titles, name: &Name) -> Option<u16>
    ensures { result ≡ index_of titles.now name.now }
{
    match titles.known(1, name) {
        Ok(index) => Some(index),
        Err(_) => None,
    }
}

/// MEAS.
#[tactic(auto, unfolding(crate::specs::Guarding::measures))]
pub(crate) fn measure(out: &mut Vec<Guarded>, line: u32) -> Result<(), NoMemory>
    ensures { OnOk result (out.new.items ≡ out.old.items ++ measures line) }
{
    set_number(out, line, Carried::Points, 0)?;
    set_number(out, line, Carried::Wanted, 1)?;
    set_number(out, line, Carried::Single, 1)
}

// Whether a measurement is the one touch of a single point.
#[tactic(auto, unfolding(crate::specs::Guarding::touched_once))]
fn touched_once(alloc: Global) -> Result<Expr, NoMemory>
    ensures { IfOk result (λ e. e ≡ touched_once) }
{
    let op = BinaryOp::Compare(Relation::Equal);
    let single = pair(alloc, op, Carried::Single.term(), number(1))?;
    let one = pair(alloc, op, Carried::Points.term(), number(1))?;
    both(alloc, &single, &one)
}

// And in the frame that is the current one still.
fn touched_here(alloc: Global) -> Result<Expr, NoMemory>
    ensures { IfOk result (λ e. e ≡ touched_here) }
{
    let op = BinaryOp::Compare(Relation::Equal);
    let once = touched_once(alloc)?;
    let here = pair(alloc, op, Carried::Touched.term(), Carried::Frame.term())?;
    both(alloc, &once, &here)
}

// The feature at an index was measured by a single point, in the frame that is the current one still, or it has no value that is known.
#[tactic(auto, unfolding(crate::specs::Guarding::keeps_point))]
fn keep_point(
    alloc: Global,
    out: &mut Vec<Guarded>,
    datums: bool,
    line: u32,
    index: Option<u16>,
) -> Result<(), NoMemory>
    ensures { OnOk result (out.new.items ≡ out.old.items ++ keeps_point datums line index) }
{
    let Some(index) = index else {
        return Ok(());
    };
    stand(out, line, 0, Form::Test(touched_here(alloc)?))?;
    set_item(out, line, Item::Measured, index, in_frame(alloc)?)?;
    elsewhere(out, line)?;
    lose_item(out, line, Item::Measured, index)?;
    end(out, line)?;
    unbind(out, datums, line, index)
}

// Points that were asked for and don't stand there aren't tried.
#[tactic(auto, unfolding(crate::specs::Guarding::counts_points))]
fn count_points(
    alloc: Global,
    out: &mut Vec<Guarded>,
    line: u32,
    measuring: &Option<Name>,
) -> Result<(), NoMemory>
    ensures { OnOk result (out.new.items ≡ out.old.items ++ counts_points line measuring.now) }
{
    match measuring {
        None => Ok(()),
        Some(_) => {
            let op = BinaryOp::Compare(Relation::NotEqual);
            let test = pair(alloc, op, Carried::Points.term(), Carried::Wanted.term())?;
            stand(out, line, 0, Form::Test(test))?;
            untried(out, line)?;
            end(out, line)
        }
    }
}

/// The index of the feature that is measured, if it is declared.
pub(crate) fn measured_index(declared: &Titles, measuring: &Option<Name>) -> Option<u16>
    ensures { result ≡ measured_index declared.now measuring.now }
{
    match measuring {
        Some(label) => index_among(declared, label),
        None => None,
    }
}

// The way from the last point to a clearance surface isn't tried, where there is one.
#[tactic(auto, unfolding(crate::specs::Guarding::leaves_points))]
fn leave_points(alloc: Global, out: &mut Vec<Guarded>, line: u32) -> Result<(), NoMemory>
    ensures { OnOk result (out.new.items ≡ out.old.items ++ leaves_points line) }
{
    let op = BinaryOp::Compare(Relation::NotEqual);
    let test = pair(alloc, op, Carried::Clearance.term(), Carried::Epoch.term())?;
    stand(out, line, 0, Form::Test(test))?;
    untried(out, line)?;
    end(out, line)
}

/// ENDMES.
pub(crate) fn end_measure(
    alloc: Global,
    out: &mut Vec<Guarded>,
    datums: bool,
    line: u32,
    declared: &Titles,
    measuring: &Option<Name>,
) -> Result<(), NoMemory>
    ensures { OnOk result (out.new.items ≡ out.old.items ++ measured datums line declared.now measuring.now) }
{
    count_points(alloc, out, line, measuring)?;
    let index = measured_index(declared, measuring);
    keep_point(alloc, out, datums, line, index)?;
    leave_points(alloc, out, line)?;
    know(out, line, Carried::Qualification)?;
    set_number(out, line, Carried::Wanted, 0)
}

// Where a feature isn't declared here, its nominal isn't known.
#[tactic(auto, unfolding(crate::specs::Guarding::nominal_where))]
fn nominal_where(
    alloc: Global,
    out: &mut Vec<Guarded>,
    line: u32,
    index: u16,
) -> Result<(), NoMemory>
    ensures { OnOk result (out.new.items ≡ out.old.items ++ nominal_where line index) }
{
    set_item(out, line, Item::Nominal, index, in_frame(alloc)?)?;
    elsewhere(out, line)?;
    lose_item(out, line, Item::Nominal, index)?;
    end(out, line)
}

/// The direction of an axis as whole numbers, in thousandths.
pub(crate) fn direction_of(alloc: Global, axis: Axis) -> Result<Coordinates, NoMemory>
    ensures { IfOk result (λ d. d ≡ direction_of axis) }
{
    match axis {
        Axis::PlusX => whole_place(alloc, 1000, 0, 0),
        Axis::MinusX => whole_place(alloc, -1000, 0, 0),
        Axis::PlusY => whole_place(alloc, 0, 1000, 0),
        Axis::MinusY => whole_place(alloc, 0, -1000, 0),
        Axis::PlusZ => whole_place(alloc, 0, 0, 1000),
        Axis::MinusZ => whole_place(alloc, 0, 0, -1000),
    }
}

// Three whole numbers.
fn whole_place(alloc: Global, x: i32, y: i32, z: i32) -> Result<Coordinates, NoMemory>
    ensures { IfOk result (λ d. d ≡ record { x = whole_of x; y = whole_of y; z = whole_of z }) }
{
    let x = whole(alloc, x)?;
    let y = whole(alloc, y)?;
    let z = whole(alloc, z)?;
    Ok(Coordinates { x, y, z })
}

// The direction of the feature at an index is carried.
fn set_direction(
    out: &mut Vec<Guarded>,
    line: u32,
    index: u16,
    direction: Coordinates,
) -> Result<(), NoMemory>
    ensures { OnOk result (out.new.items ≡ out.old.items ++ sets_direction line index direction) }
{
    set_item(out, line, Item::AlongX, index, direction.x)?;
    set_item(out, line, Item::AlongY, index, direction.y)?;
    set_item(out, line, Item::AlongZ, index, direction.z)
}

// It is where points are approached along it.
fn keep_direction(
    alloc: Global,
    out: &mut Vec<Guarded>,
    pointed: bool,
    line: u32,
    index: u16,
    axis: Axis,
) -> Result<(), NoMemory>
    ensures { OnOk result (out.new.items ≡ out.old.items ++ keeps_direction pointed line index axis) }
{
    if pointed {
        set_direction(out, line, index, direction_of(alloc, axis)?)
    } else {
        Ok(())
    }
}

// FEAT of a point along an axis, at its index.
#[tactic(auto, unfolding(crate::specs::Guarding::features_at))]
fn declare_at(
    alloc: Global,
    out: &mut Vec<Guarded>,
    pointed: bool,
    line: u32,
    expansion: u32,
    names: &Names,
    label: Name,
    place: Coordinates,
    axis: Axis,
    index: u16,
) -> Result<(), NoMemory>
    ensures { OnOk result (out.new.items ≡ out.old.items ++ features_at pointed line expansion names.now label place axis index) }
{
    ask(out, line, length_asks(alloc)?)?;
    ask_place(alloc, out, line, names, &place)?;
    where_known(out, line)?;
    stand(out, line, expansion, Form::Feature(label, place, axis))?;
    keep_direction(alloc, out, pointed, line, index, axis)?;
    nominal_where(alloc, out, line, index)
}

// What is carried of a direction is declared, where points are approached along it.
fn declare_direction(
    alloc: Global,
    out: &mut Vec<Guarded>,
    pointed: bool,
    line: u32,
    index: u16,
) -> Result<(), NoMemory>
    ensures { OnOk result (out.new.items ≡ out.old.items ++ declares_direction pointed line index) }
{
    if !pointed {
        return Ok(());
    }
    declare_item(alloc, out, line, Item::AlongX, index)?;
    declare_item(alloc, out, line, Item::AlongY, index)?;
    declare_item(alloc, out, line, Item::AlongZ, index)
}

// What is carried of a feature is declared with it, where it is new.
fn declare_carried(
    alloc: Global,
    out: &mut Vec<Guarded>,
    pointed: bool,
    datums: bool,
    line: u32,
    index: u16,
    was: Option<u16>,
) -> Result<(), NoMemory>
    ensures { OnOk result (out.new.items ≡ out.old.items ++ declares_feature pointed datums line index was) }
{
    match was {
        Some(_) => Ok(()),
        None => {
            declare_item(alloc, out, line, Item::Measured, index)?;
            declare_item(alloc, out, line, Item::Nominal, index)?;
            declare_direction(alloc, out, pointed, line, index)?;
            declare_bound(alloc, out, datums, line, index)
        }
    }
}

// A feature that isn't known by its FEAT, nor is its value.
fn feature_gone(out: &mut Vec<Guarded>, line: u32, index: Option<u16>) -> Result<(), NoMemory>
    ensures { OnOk result (out.new.items ≡ out.old.items ++ feature_gone line index) }
{
    match index {
        Some(index) => {
            lose_item(out, line, Item::Nominal, index)?;
            lose_item(out, line, Item::Measured, index)
        }
        None => Ok(()),
    }
}

// A feature whose place has a form, and which is new.
fn declare_new(
    alloc: Global,
    out: &mut Vec<Guarded>,
    pointed: bool,
    datums: bool,
    line: u32,
    expansion: u32,
    names: &Names,
    declared: &mut Titles,
    label: Name,
    place: Coordinates,
    axis: Axis,
) -> Result<(), NoMemory>
    requires { index_of declared.old label ≡ None }
    ensures put { OnOk result (out.new.items ≡ out.old.items ++ features_in pointed datums line expansion names.now declared.old label place axis (entered declared.old label)) }
    ensures declared { OnOk result (declared.new ≡ with_known declared.old label) }
{
    if declared.len() >= MOST_NAMES {
        return stand(out, line, expansion, Form::Feature(label, place, axis));
    }
    match declared.enter(line, label.copy()) {
        Ok(index) => {
            declare_carried(alloc, out, pointed, datums, line, index, None)?;
            declare_at(
                alloc, out, pointed, line, expansion, names, label, place, axis, index,
            )
        }
        Err(_) => Err(NoMemory),
    }
}

// A feature whose place has a form.
fn declare_in(
    alloc: Global,
    out: &mut Vec<Guarded>,
    pointed: bool,
    datums: bool,
    line: u32,
    expansion: u32,
    names: &Names,
    declared: &mut Titles,
    label: Name,
    place: Coordinates,
    axis: Axis,
) -> Result<(), NoMemory>
    ensures put { OnOk result (out.new.items ≡ out.old.items ++ features_in pointed datums line expansion names.now declared.old label place axis (entered declared.old label)) }
    ensures declared { OnOk result (declared.new ≡ with_known declared.old label) }
{
    match index_among(declared, &label) {
        Some(index) => declare_at(
            alloc, out, pointed, line, expansion, names, label, place, axis, index,
        ),
        None => declare_new(
            alloc, out, pointed, datums, line, expansion, names, declared, label, place, axis,
        ),
    }
}

/// FEAT.
pub(crate) fn declare(
    alloc: Global,
    out: &mut Vec<Guarded>,
    pointed: bool,
    datums: bool,
    line: u32,
    expansion: u32,
    names: &Names,
    declared: &mut Titles,
    label: Name,
    place: Coordinates,
    axis: Axis,
) -> Result<(), NoMemory>
    ensures put { OnOk result (out.new.items ≡ out.old.items ++ features pointed datums line expansion names.now declared.old label place axis) }
    ensures declared { OnOk result (declared.new ≡ (if has_place names.now place then with_known declared.old label else declared.old)) }
{
    if has_place(alloc, names, &place)? {
        declare_in(
            alloc, out, pointed, datums, line, expansion, names, declared, label, place, axis,
        )
    } else {
        feature_gone(out, line, index_among(declared, &label))
    }
}
