//! What has to be known of motions, places that are kept, and steps from the probe's place.

ghost use Rattle.std.specs.Prelude.{◌≡◌, ◌++◌, ◌∷◌, [], pos, OnOk, IfOk, List, Some};
ghost use Rattle.vcm_expr.specs.Source.{Plain};
ghost use Rattle.vcm_events.specs.Joined.{joined};
ghost use Rattle.vcm_templates.specs.Carried.{length_term, frame_of};
ghost use Rattle.vcm_templates.specs.Expressions.{number, both};
ghost use Rattle.vcm_templates.specs.Templates.{stands, set, elsewhere, ends};
ghost use Rattle.vcm_forms.specs.declared.statement.Form.TheVariants as form;
ghost use Rattle.vcm_kept.specs.Places.{has_place, asks_place, motion_asks, length_asks, point_asks, approach_asks, halt_asks, aimed, asks_point, set_length, forgets, keeps_here, keeps_known, keeps, tracks, loses_track, goes_to, moves_known, moves, home_asks, goes_home, homes, reaches_target, within, step_at, step_place, step_asks, steps_known, steps_to, steps_by};

use std::alloc::Global;
use vcm_events::{join, pair};
use vcm_expr::{BinaryOp, Expr, Names, Relation, Want};
use vcm_forms::{Coordinates, Form};
use vcm_num::NoMemory;
use vcm_templates::{
    Carried, Guarded, Kept, Length, are_current, ask, ask_all, both, elsewhere, end, go, gone,
    has_form, is_current, is_kept_here, knows_frame, number, set, set_number, stand, untried,
    where_known,
};

// ---- what has to be known

/// Whether the three lengths of a place have forms.
pub(crate) fn has_place(alloc: Global, names: &Names, place: &Coordinates) -> Result<bool, NoMemory>
    ensures { IfOk result (λ b. b ≡ has_place names.now place.now) }
{
    Ok(
        has_form(alloc, names, Want::Length, &place.x)?
            && has_form(alloc, names, Want::Length, &place.y)?
            && has_form(alloc, names, Want::Length, &place.z)?,
    )
}

/// What has to be known of the variables of a place.
#[tactic(auto, unfolding(crate::specs::Places::asks_place))]
pub(crate) fn ask_place(
    alloc: Global,
    out: &mut Vec<Guarded>,
    line: u32,
    names: &Names,
    place: &Coordinates,
) -> Result<(), NoMemory>
    ensures { OnOk result (out.new.items ≡ out.old.items ++ asks_place line names.now place.now) }
{
    ask_all(alloc, out, line, names, &place.x)?;
    ask_all(alloc, out, line, names, &place.y)?;
    ask_all(alloc, out, line, names, &place.z)
}

/// What has to be known for a motion.
#[tactic(auto, unfolding(crate::specs::Places::motion_asks))]
pub(crate) fn motion_asks(alloc: Global) -> Result<Expr, NoMemory>
    ensures { IfOk result (λ e. e ≡ motion_asks) }
{
    let all = [Carried::Mode, Carried::Table, Carried::Unit];
    let state = are_current(alloc, &all)?;
    both(alloc, &knows_frame(alloc)?, &state)
}

/// And for a point.
#[tactic(auto, unfolding(crate::specs::Places::point_asks))]
pub(crate) fn point_asks(alloc: Global) -> Result<Expr, NoMemory>
    ensures { IfOk result (λ e. e ≡ point_asks) }
{
    let all = [
        Carried::Scanning,
        Carried::OwnPoints,
        Carried::Approach,
        Carried::Search,
        Carried::Retract,
        Carried::Clearance,
        Carried::Compensation,
        Carried::Qualification,
    ];
    let state = are_current(alloc, &all)?;
    both(alloc, &motion_asks(alloc)?, &state)
}

/// And for a point that is approached and left.
#[tactic(auto, unfolding(crate::specs::Places::approach_asks))]
pub(crate) fn approach_asks(alloc: Global) -> Result<Expr, NoMemory>
    ensures { IfOk result (λ e. e ≡ approach_asks) }
{
    let all = [
        Carried::Scanning,
        Carried::OwnPoints,
        Carried::Approach,
        Carried::Retract,
        Carried::Clearance,
        Carried::Compensation,
        Carried::Qualification,
    ];
    let state = are_current(alloc, &all)?;
    both(alloc, &motion_asks(alloc)?, &state)
}

/// And for one that is approached alone, which has no way back either.
#[tactic(auto, unfolding(crate::specs::Places::halt_asks))]
pub(crate) fn halt_asks(alloc: Global) -> Result<Expr, NoMemory>
    ensures { IfOk result (λ e. e ≡ halt_asks) }
{
    let all = [
        Carried::Scanning,
        Carried::OwnPoints,
        Carried::Approach,
        Carried::Clearance,
        Carried::Compensation,
        Carried::Qualification,
    ];
    let state = are_current(alloc, &all)?;
    both(alloc, &motion_asks(alloc)?, &state)
}

/// A length, in a frame that is known.
#[tactic(auto, unfolding(crate::specs::Places::length_asks))]
pub(crate) fn length_asks(alloc: Global) -> Result<Expr, NoMemory>
    ensures { IfOk result (λ e. e ≡ length_asks) }
{
    let state = are_current(alloc, &[Carried::Unit])?;
    both(alloc, &knows_frame(alloc)?, &state)
}

/// What has to be known of a way to a place.
#[tactic(auto, unfolding(crate::specs::Places::asks_point))]
pub(crate) fn ask_point(
    alloc: Global,
    out: &mut Vec<Guarded>,
    line: u32,
    names: &Names,
    asked: Expr,
    place: &Coordinates,
) -> Result<(), NoMemory>
    ensures { OnOk result (out.new.items ≡ out.old.items ++ asks_point line names.now asked place.now) }
{
    ask(out, line, asked)?;
    ask_place(alloc, out, line, names, place)?;
    go(alloc, out, line)
}

// What has to be known behind GOTARG, beside this.
fn aimed(alloc: Global, aiming: bool, asked: Expr) -> Result<Expr, NoMemory>
    ensures { IfOk result (λ e. e ≡ aimed aiming asked) }
{
    if aiming {
        both(alloc, &asked, &is_current(alloc, Carried::OwnPoints)?)
    } else {
        Ok(asked)
    }
}

// Within a measurement the machine may go over a clearance surface first, or scan.
fn within(alloc: Global, measuring: bool, asked: Expr) -> Result<Expr, NoMemory>
    ensures { IfOk result (λ e. e ≡ within measuring asked) }
{
    if measuring {
        let all = [Carried::Scanning, Carried::OwnPoints, Carried::Clearance];
        let state = are_current(alloc, &all)?;
        both(alloc, &asked, &state)
    } else {
        Ok(asked)
    }
}

// ---- places that are kept

/// An expression again.
pub(crate) fn copied(alloc: Global, value: &Expr) -> Result<Expr, NoMemory>
    ensures { IfOk result (λ e. e ≡ value.now) }
{
    match value.copy(alloc) {
        Ok(copy) => Ok(copy),
        Err(_) => Err(NoMemory),
    }
}

/// A length that is carried gets a value.
pub(crate) fn set_length(
    out: &mut Vec<Guarded>,
    line: u32,
    length: Length,
    value: Expr,
) -> Result<(), NoMemory>
    ensures { OnOk result (out.new.items ≡ out.old.items ++ set_length line length value ∷ []) }
{
    stand(out, line, 0, Form::Assignment(length.target(), value))
}

/// Nothing is known any more of a place that is kept.
pub(crate) fn forget(out: &mut Vec<Guarded>, line: u32, kept: Kept) -> Result<(), NoMemory>
    ensures { OnOk result (out.new.items ≡ out.old.items ++ forgets line kept ∷ []) }
{
    set_number(out, line, kept.frame(), 0)
}

// A place is kept, as one of the current frame.
#[tactic(auto, unfolding(crate::specs::Places::keeps_here))]
fn keep_here(
    alloc: Global,
    out: &mut Vec<Guarded>,
    line: u32,
    kept: Kept,
    place: &Coordinates,
) -> Result<(), NoMemory>
    ensures { OnOk result (out.new.items ≡ out.old.items ++ keeps_here line kept place.now) }
{
    set_length(out, line, kept.x(), copied(alloc, &place.x)?)?;
    set_length(out, line, kept.y(), copied(alloc, &place.y)?)?;
    set_length(out, line, kept.z(), copied(alloc, &place.z)?)?;
    set(out, line, kept.frame(), Expr::leaf(Carried::Frame.term()))
}

// A place whose lengths have forms is kept where they are known.
#[tactic(auto, unfolding(crate::specs::Places::keeps_known))]
fn keep_known(
    alloc: Global,
    out: &mut Vec<Guarded>,
    line: u32,
    names: &Names,
    kept: Kept,
    place: &Coordinates,
) -> Result<(), NoMemory>
    ensures { OnOk result (out.new.items ≡ out.old.items ++ keeps_known line names.now kept place.now) }
{
    ask(out, line, length_asks(alloc)?)?;
    ask_place(alloc, out, line, names, place)?;
    where_known(out, line)?;
    keep_here(alloc, out, line, kept, place)?;
    elsewhere(out, line)?;
    forget(out, line, kept)?;
    end(out, line)
}

/// A place is kept.
pub(crate) fn keep(
    alloc: Global,
    out: &mut Vec<Guarded>,
    line: u32,
    names: &Names,
    kept: Kept,
    place: &Coordinates,
) -> Result<(), NoMemory>
    ensures { OnOk result (out.new.items ≡ out.old.items ++ keeps line names.now kept place.now) }
{
    if has_place(alloc, names, place)? {
        keep_known(alloc, out, line, names, kept, place)
    } else {
        forget(out, line, kept)
    }
}

// Where a text has steps, the place that the probe comes to is kept.
fn track(
    alloc: Global,
    out: &mut Vec<Guarded>,
    steps: bool,
    line: u32,
    place: &Coordinates,
) -> Result<(), NoMemory>
    ensures { OnOk result (out.new.items ≡ out.old.items ++ tracks steps line place.now) }
{
    if steps {
        keep_here(alloc, out, line, Kept::Probe, place)
    } else {
        Ok(())
    }
}

/// Nothing is known of it where the probe comes to a place that has no coordinates here.
pub(crate) fn lose_track(out: &mut Vec<Guarded>, steps: bool, line: u32) -> Result<(), NoMemory>
    ensures { OnOk result (out.new.items ≡ out.old.items ++ loses_track steps line) }
{
    if steps {
        forget(out, line, Kept::Probe)
    } else {
        Ok(())
    }
}

// The way to a place that is kept.
#[tactic(auto, unfolding(crate::specs::Places::goes_to))]
fn go_to_kept(
    alloc: Global,
    out: &mut Vec<Guarded>,
    steps: bool,
    line: u32,
    kept: Kept,
    asked: &Expr,
) -> Result<(), NoMemory>
    ensures { OnOk result (out.new.items ≡ out.old.items ++ goes_to steps line kept asked.now) }
{
    ask(out, line, both(alloc, asked, &is_kept_here(alloc, kept)?)?)?;
    go(alloc, out, line)?;
    stand(out, line, 0, Form::Move(kept.place()))?;
    track(alloc, out, steps, line, &kept.place())?;
    gone(out, line)
}

// ---- motions

// The way to a place, which is kept where a text has steps.
fn go_and_track(
    alloc: Global,
    out: &mut Vec<Guarded>,
    steps: bool,
    line: u32,
    expansion: u32,
    place: Coordinates,
) -> Result<(), NoMemory>
    ensures { OnOk result (out.new.items ≡ out.old.items ++ stands line expansion (form.Move place) ∷ tracks steps line place) }
{
    if steps {
        let again = place_again(alloc, &place)?;
        stand(out, line, expansion, Form::Move(place))?;
        keep_here(alloc, out, line, Kept::Probe, &again)
    } else {
        stand(out, line, expansion, Form::Move(place))
    }
}

/// A place again.
pub(crate) fn place_again(alloc: Global, place: &Coordinates) -> Result<Coordinates, NoMemory>
    ensures { IfOk result (λ p. p ≡ place.now) }
{
    let x = copied(alloc, &place.x)?;
    let y = copied(alloc, &place.y)?;
    let z = copied(alloc, &place.z)?;
    Ok(Coordinates { x, y, z })
}

// The way to a place whose lengths have forms.
#[tactic(auto, unfolding(crate::specs::Places::moves_known))]
fn go_known(
    alloc: Global,
    out: &mut Vec<Guarded>,
    steps: bool,
    line: u32,
    expansion: u32,
    names: &Names,
    aiming: bool,
    measuring: bool,
    place: Coordinates,
) -> Result<(), NoMemory>
    ensures { OnOk result (out.new.items ≡ out.old.items ++ moves_known steps line expansion names.now aiming measuring place) }
{
    let asked = within(alloc, measuring, aimed(alloc, aiming, motion_asks(alloc)?)?)?;
    ask_point(alloc, out, line, names, asked, &place)?;
    go_and_track(alloc, out, steps, line, expansion, place)?;
    gone(out, line)
}

/// GOTO.
pub(crate) fn go_to(
    alloc: Global,
    out: &mut Vec<Guarded>,
    steps: bool,
    line: u32,
    expansion: u32,
    names: &Names,
    aiming: bool,
    measuring: bool,
    place: Coordinates,
) -> Result<(), NoMemory>
    ensures { OnOk result (out.new.items ≡ out.old.items ++ moves steps line expansion names.now aiming measuring place) }
{
    if has_place(alloc, names, &place)? {
        go_known(
            alloc, out, steps, line, expansion, names, aiming, measuring, place,
        )
    } else {
        untried(out, line)
    }
}

// What has to be known for the way to the home of the part.
#[tactic(auto, unfolding(crate::specs::Places::home_asks))]
fn home_asks(alloc: Global) -> Result<Expr, NoMemory>
    ensures { IfOk result (λ e. e ≡ home_asks) }
{
    are_current(alloc, &[Carried::Mode, Carried::Table, Carried::Home])
}

// The way to the home of the part.
#[tactic(auto, unfolding(crate::specs::Places::goes_home))]
fn go_to_home(
    alloc: Global,
    out: &mut Vec<Guarded>,
    steps: bool,
    aiming: bool,
    measuring: bool,
    line: u32,
    expansion: u32,
) -> Result<(), NoMemory>
    ensures { OnOk result (out.new.items ≡ out.old.items ++ goes_home steps aiming measuring line expansion) }
{
    let asked = aimed(alloc, aiming, home_asks(alloc)?)?;
    ask(out, line, within(alloc, measuring, asked)?)?;
    go(alloc, out, line)?;
    stand(out, line, expansion, Form::Home)?;
    lose_track(out, steps, line)?;
    gone(out, line)
}

/// GOHOME: behind a FROM it goes to its place.
pub(crate) fn go_home(
    alloc: Global,
    out: &mut Vec<Guarded>,
    from: bool,
    steps: bool,
    aiming: bool,
    measuring: bool,
    line: u32,
    expansion: u32,
) -> Result<(), NoMemory>
    ensures { OnOk result (out.new.items ≡ out.old.items ++ homes from steps aiming measuring line expansion) }
{
    if !from {
        return go_to_home(alloc, out, steps, aiming, measuring, line, expansion);
    }
    stand(out, line, 0, Form::Test(is_current(alloc, Carried::Home)?))?;
    go_to_home(alloc, out, steps, aiming, measuring, line, expansion)?;
    elsewhere(out, line)?;
    let asked = aimed(alloc, aiming, motion_asks(alloc)?)?;
    let asked = within(alloc, measuring, asked)?;
    go_to_kept(alloc, out, steps, line, Kept::Home, &asked)?;
    end(out, line)
}

/// ENDGO.
pub(crate) fn go_to_target(
    alloc: Global,
    out: &mut Vec<Guarded>,
    spots: bool,
    steps: bool,
    measuring: bool,
    line: u32,
) -> Result<(), NoMemory>
    ensures { OnOk result (out.new.items ≡ out.old.items ++ reaches_target spots steps measuring line) }
{
    if spots {
        let asked = within(alloc, measuring, aimed(alloc, true, motion_asks(alloc)?)?)?;
        go_to_kept(alloc, out, steps, line, Kept::Target, &asked)
    } else {
        untried(out, line)
    }
}

// ---- steps

// A place of three lengths, if there are.
pub(crate) fn step_at(x: Option<Expr>, y: Option<Expr>, z: Option<Expr>) -> Option<Coordinates>
    ensures { result ≡ step_at x y z }
{
    Some(Coordinates {
        x: x?,
        y: y?,
        z: z?,
    })
}

// The place at a step from the probe's.
fn step_place(
    alloc: Global,
    op: BinaryOp,
    step: &Coordinates,
) -> Result<Option<Coordinates>, NoMemory>
    ensures { IfOk result (λ q. q ≡ step_place op step.now) }
{
    let x = join(alloc, op, &Expr::leaf(Length::ProbeX.term()), &step.x)?;
    let y = join(alloc, op, &Expr::leaf(Length::ProbeY.term()), &step.y)?;
    let z = join(alloc, op, &Expr::leaf(Length::ProbeZ.term()), &step.z)?;
    Ok(step_at(x, y, z))
}

// What has to be known for a step.
#[tactic(auto, unfolding(crate::specs::Places::step_asks))]
fn step_asks(alloc: Global) -> Result<Expr, NoMemory>
    ensures { IfOk result (λ e. e ≡ step_asks) }
{
    let op = BinaryOp::Compare(Relation::NotEqual);
    let stands = pair(alloc, op, Carried::Place.term(), number(0))?;
    let place = both(alloc, &stands, &is_kept_here(alloc, Kept::Probe)?)?;
    both(alloc, &motion_asks(alloc)?, &place)
}

// A step of these lengths to a place.
#[tactic(auto, unfolding(crate::specs::Places::steps_known))]
fn step_known(
    alloc: Global,
    out: &mut Vec<Guarded>,
    aiming: bool,
    measuring: bool,
    line: u32,
    names: &Names,
    step: &Coordinates,
    place: Coordinates,
) -> Result<(), NoMemory>
    ensures { OnOk result (out.new.items ≡ out.old.items ++ steps_known aiming measuring line names.now step.now place) }
{
    let asked = aimed(alloc, aiming, step_asks(alloc)?)?;
    let asked = within(alloc, measuring, asked)?;
    ask_point(alloc, out, line, names, asked, step)?;
    go_and_track(alloc, out, true, line, 0, place)?;
    gone(out, line)
}

/// GOTO/INCR.
pub(crate) fn step_by(
    alloc: Global,
    out: &mut Vec<Guarded>,
    aiming: bool,
    measuring: bool,
    line: u32,
    names: &Names,
    op: BinaryOp,
    step: &Coordinates,
) -> Result<(), NoMemory>
    ensures { OnOk result (out.new.items ≡ out.old.items ++ steps_by aiming measuring line names.now op step.now) }
{
    if !has_place(alloc, names, step)? {
        return untried(out, line);
    }
    match step_place(alloc, op, step)? {
        Some(place) => step_known(alloc, out, aiming, measuring, line, names, step, place),
        None => untried(out, line),
    }
}
