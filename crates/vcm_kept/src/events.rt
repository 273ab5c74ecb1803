//! What events do to what is known.

ghost use Rattle.std.specs.Prelude.{◌≡◌, ◌++◌, ◌∷◌, [], pos, ℤ, Some, None, true, OnOk, IfOk, List, codes};
ghost use Rattle.vcm_expr.specs.Source.{Plain, leaf_in};
ghost use Rattle.vcm_events.specs.Events.{event_named};
ghost use Rattle.vcm_templates.specs.Expressions.{number};
ghost use Rattle.vcm_templates.specs.declared.carried.Carried.TheVariants as carried;
ghost use Rattle.vcm_forms.specs.declared.statement.Form.TheVariants as form;
ghost use Rattle.vcm_templates.specs.Templates.{stands, elsewhere, ends, set, untried, untried_point, lose_all};
ghost use Rattle.vcm_kept.specs.Guarding.{is_nothing, turns_machine, turns_state, changes_sensor, selects, unselected, selects_number, selects_by, misses_probe, takes_probe, wants_points, machine_name, recalls_machine, polar_asks, turns_polar, happens, assigns_or};

use crate::choices::{add_value, begin_block};
use crate::datums::{begin_origins, straighten};
use crate::effects::tell_tip;
use crate::named::drop_frames;
use crate::places::{go_to_target, lose_track};
use crate::text::Text;
use crate::values::leave_out;
use crate::variables::assign;
use std::alloc::Global;
use vcm_events::{Event, pair};
use vcm_expr::{BinaryOp, Expr, Names, Relation, Term, Want};
use vcm_forms::{Form, Target};
use vcm_items::Name;
use vcm_num::{Literal, NoMemory};
use vcm_remarks::{Cause, Remark};
use vcm_templates::{
    Carried, FEATURES_STEP, Guarded, UNKNOWN_SENSOR, are_current, ask, ask_all, elsewhere, end,
    go_to_end, has_form, know, lose, lose_all, lose_frame, new_frame, number, raise, remark, set,
    set_number, stand, truth, untried, untried_point, where_known,
};

/// The name of the machine's frame.
pub(crate) fn machine_name() -> Name
    ensures { result ≡ machine_name }
{
    Name::new(b"________________")
}

/// Whether a number is 0; what is no number counts as that.
pub(crate) fn is_nothing(value: &Expr) -> bool
    ensures { result ≡ is_nothing (leaf_in value.now) }
{
    match value.as_leaf() {
        Some(Term::Number(Literal::Int(number))) => number == 0,
        _ => true,
    }
}

// Something is lost, with the place of the probe, or known again.
fn turn_machine(
    out: &mut Vec<Guarded>,
    line: u32,
    carried: Carried,
    cause: Cause,
    value: &Expr,
) -> Result<(), NoMemory>
    ensures { OnOk result (out.new.items ≡ out.old.items ++ turns_machine line carried cause (is_nothing (leaf_in value.now))) }
{
    if is_nothing(value) {
        lose(out, line, carried, cause)?;
        set_number(out, line, Carried::Place, 0)
    } else {
        know(out, line, carried)
    }
}

// Something is lost, or known again.
fn turn_state(
    out: &mut Vec<Guarded>,
    line: u32,
    carried: Carried,
    cause: Cause,
    value: &Expr,
) -> Result<(), NoMemory>
    ensures { OnOk result (out.new.items ≡ out.old.items ++ turns_state line carried cause (is_nothing (leaf_in value.now))) }
{
    if is_nothing(value) {
        lose(out, line, carried, cause)
    } else {
        know(out, line, carried)
    }
}

// Another sensor, or one that may be another.
#[tactic(auto, unfolding(crate::specs::Guarding::changes_sensor))]
fn change_sensor(
    alloc: Global,
    out: &mut Vec<Guarded>,
    line: u32,
    sensor: Expr,
) -> Result<(), NoMemory>
    ensures { OnOk result (out.new.items ≡ out.old.items ++ changes_sensor line sensor) }
{
    let op = BinaryOp::Compare(Relation::NotEqual);
    let selected = pair(alloc, op, Carried::Sensor.term(), number(0))?;
    set_number(out, line, Carried::Place, 0)?;
    stand(out, line, 0, Form::Test(selected))?;
    let stands = Form::Assignment(Carried::Place.target(), Expr::leaf(number(0)));
    remark(out, line, 0, stands, Remark::AnotherTip)?;
    end(out, line)?;
    set(out, line, Carried::Sensor, sensor)
}

// A sensor by its number, which is another one than that of before, as a test tells.
#[tactic(auto, unfolding(crate::specs::Guarding::selects))]
fn select(
    alloc: Global,
    out: &mut Vec<Guarded>,
    line: u32,
    test: Expr,
    sensor: Expr,
) -> Result<(), NoMemory>
    ensures { OnOk result (out.new.items ≡ out.old.items ++ selects line test sensor) }
{
    stand(out, line, 0, Form::Test(test))?;
    change_sensor(alloc, out, line, sensor)?;
    end(out, line)
}

// The sensor of a number.
fn select_number(
    alloc: Global,
    out: &mut Vec<Guarded>,
    line: u32,
    value: &Expr,
) -> Result<(), NoMemory>
    ensures { OnOk result (out.new.items ≡ out.old.items ++ selects_number line (leaf_in value.now)) }
{
    let Some(sensor) = value.as_leaf() else {
        return Ok(());
    };
    let Some(again) = value.as_leaf() else {
        return Ok(());
    };
    let op = BinaryOp::Compare(Relation::NotEqual);
    let test = pair(alloc, op, Carried::Sensor.term(), sensor)?;
    select(alloc, out, line, test, Expr::leaf(again))
}

// A sensor, in an expansion.
fn select_by(
    alloc: Global,
    out: &mut Vec<Guarded>,
    line: u32,
    expansion: u32,
    value: &Expr,
) -> Result<(), NoMemory>
    ensures { OnOk result (out.new.items ≡ out.old.items ++ selects_by line expansion (leaf_in value.now)) }
{
    if expansion == 0 && !is_nothing(value) {
        select_number(alloc, out, line, value)
    } else {
        change_sensor(alloc, out, line, Expr::leaf(number(UNKNOWN_SENSOR)))
    }
}

// A probe that the file of probes hasn't.
#[tactic(auto, unfolding(crate::specs::Guarding::misses_probe))]
fn miss_probe(out: &mut Vec<Guarded>, line: u32) -> Result<(), NoMemory>
    ensures { OnOk result (out.new.items ≡ out.old.items ++ misses_probe line) }
{
    let stands = Form::Assignment(Carried::Place.target(), Expr::leaf(number(0)));
    remark(out, line, 0, stands, Remark::NotInFile)?;
    set_number(out, line, Carried::Sensor, UNKNOWN_SENSOR)
}

// The probe of a file that has this number, or none of the file's.
fn take_probe(out: &mut Vec<Guarded>, steps: bool, line: u32, value: Expr) -> Result<(), NoMemory>
    ensures { OnOk result (out.new.items ≡ out.old.items ++ takes_probe steps line (is_nothing (leaf_in value)) value) }
{
    if is_nothing(&value) {
        return miss_probe(out, line);
    }
    lose_track(out, steps, line)?;
    set(out, line, Carried::Sensor, value)
}

// Where it isn't known how many points are wanted, none are, which no measurement has.
fn want_none(out: &mut Vec<Guarded>, line: u32) -> Result<(), NoMemory>
    ensures { OnOk result (out.new.items ≡ out.old.items ++ elsewhere line ∷ set line carried.Wanted (Plain (number (pos 0))) ∷ ends line ∷ []) }
{
    elsewhere(out, line)?;
    set_number(out, line, Carried::Wanted, 0)?;
    end(out, line)
}

// How many points are wanted.
#[tactic(auto, unfolding(crate::specs::Guarding::wants_points))]
fn want_points(
    alloc: Global,
    out: &mut Vec<Guarded>,
    line: u32,
    names: &Names,
    value: Expr,
) -> Result<(), NoMemory>
    ensures { OnOk result (out.new.items ≡ out.old.items ++ wants_points line names.now value) }
{
    set_number(out, line, Carried::Single, 0)?;
    if !has_form(alloc, names, Want::Int, &value)? {
        return set_number(out, line, Carried::Wanted, 0);
    }
    ask(out, line, truth(true))?;
    ask_all(alloc, out, line, names, &value)?;
    where_known(out, line)?;
    set(out, line, Carried::Wanted, value)?;
    want_none(out, line)
}

// The current frame is the machine's.
#[tactic(auto, unfolding(crate::specs::Guarding::recalls_machine))]
fn recall_machine(
    alloc: Global,
    out: &mut Vec<Guarded>,
    line: u32,
    machine: bool,
    datums: bool,
) -> Result<(), NoMemory>
    ensures { OnOk result (out.new.items ≡ out.old.items ++ recalls_machine machine datums line) }
{
    if machine {
        stand(out, line, 0, Form::Restore(machine_name()))?;
        new_frame(alloc, out, line)?;
        straighten(out, datums, line)
    } else {
        lose_frame(out, line)
    }
}

// What polar places hang on.
#[tactic(auto, unfolding(crate::specs::Guarding::polar_asks))]
fn polar_asks(alloc: Global) -> Result<Expr, NoMemory>
    ensures { IfOk result (λ e. e ≡ polar_asks) }
{
    are_current(alloc, &[Carried::Angle, Carried::Plane])
}

// One of these is lost, or known again, in a text that asks for it.
fn turn_polar(
    out: &mut Vec<Guarded>,
    line: u32,
    polar: bool,
    carried: Carried,
    value: &Expr,
) -> Result<(), NoMemory>
    ensures { OnOk result (out.new.items ≡ out.old.items ++ turns_polar polar line carried (is_nothing (leaf_in value.now))) }
{
    if polar {
        turn_state(out, line, carried, Cause::Value, value)
    } else {
        Ok(())
    }
}

// A polar place begins.
fn begin_polar(alloc: Global, out: &mut Vec<Guarded>, line: u32) -> Result<(), NoMemory>
    ensures { OnOk result (out.new.items ≡ out.old.items ++ stands line 0 (form.Test polar_asks) ∷ []) }
{
    stand(out, line, 0, Form::Test(polar_asks(alloc)?))
}

// A motion by a polar place ends.
fn end_motion(out: &mut Vec<Guarded>, line: u32) -> Result<(), NoMemory>
    ensures { OnOk result (out.new.items ≡ out.old.items ++ elsewhere line ∷ untried line ∷ ends line ∷ []) }
{
    elsewhere(out, line)?;
    untried(out, line)?;
    end(out, line)
}

// A point by a polar place ends.
fn end_point(alloc: Global, out: &mut Vec<Guarded>, line: u32) -> Result<(), NoMemory>
    ensures { OnOk result (out.new.items ≡ out.old.items ++ elsewhere line ∷ (untried_point line ++ ends line ∷ [])) }
{
    elsewhere(out, line)?;
    untried_point(alloc, out, line)?;
    end(out, line)
}

// What a statement does isn't known, nor anything behind it.
fn lose_everything(alloc: Global, out: &mut Vec<Guarded>, line: u32) -> Result<(), NoMemory>
    ensures { OnOk result (out.new.items ≡ out.old.items ++ lose_all line ++ untried line ∷ []) }
{
    lose_all(alloc, out, line)?;
    untried(out, line)
}

/// Where a statement stands: whether within a measurement, and how deep the innermost block is.
#[derive(Clone, Copy)]
pub struct Around {
    pub measuring: bool,
    pub depth: u16,
}

// What an event does.
fn happen(
    alloc: Global,
    out: &mut Vec<Guarded>,
    line: u32,
    expansion: u32,
    text: Text,
    around: Around,
    names: &Names,
    event: Event,
    value: Expr,
) -> Result<(), NoMemory>
    ensures { OnOk result (out.new.items ≡ out.old.items ++ happens text around line expansion names.now event value) }
{
    let v = &value;
    match event {
        Event::Mode => turn_machine(out, line, Carried::Mode, Cause::Mode, v),
        Event::Table => turn_machine(out, line, Carried::Table, Cause::Table, v),
        Event::Scanning => turn_state(out, line, Carried::Scanning, Cause::Scanning, v),
        Event::Unit => turn_state(out, line, Carried::Unit, Cause::Unit, v),
        Event::OwnPoints => turn_state(out, line, Carried::OwnPoints, Cause::Mode, v),
        Event::Approach => turn_state(out, line, Carried::Approach, Cause::Setting, v),
        Event::Search => turn_state(out, line, Carried::Search, Cause::Setting, v),
        Event::Retract => turn_state(out, line, Carried::Retract, Cause::Setting, v),
        Event::Clearance => turn_state(out, line, Carried::Clearance, Cause::Setting, v),
        Event::Compensation => turn_state(out, line, Carried::Compensation, Cause::Setting, v),
        Event::Qualification => turn_state(out, line, Carried::Qualification, Cause::Setting, v),
        Event::Target => {
            let (spots, steps) = (text.spots, text.steps);
            go_to_target(alloc, out, spots, steps, around.measuring, line)
        }
        Event::Place => set_number(out, line, Carried::Place, 0),
        Event::Untried => untried(out, line),
        Event::UntriedPoint => untried_point(alloc, out, line),
        Event::Values => raise(alloc, out, line, Carried::Values, 1),
        Event::Features | Event::DropFeature | Event::Remake => {
            raise(alloc, out, line, Carried::Features, FEATURES_STEP)
        }
        Event::Frames | Event::DropFrame => drop_frames(out, line),
        Event::Frame => lose_frame(out, line),
        Event::Saving | Event::StoreFrame => set_number(out, line, Carried::Saving, 0),
        Event::Width => tell_tip(out, line),
        Event::Machine => recall_machine(alloc, out, line, text.machine, text.datums),
        Event::Points => want_points(alloc, out, line, names, value),
        Event::Sensor => select_by(alloc, out, line, expansion, v),
        Event::Probe => take_probe(out, text.steps, line, value),
        Event::Angle => turn_polar(out, line, text.polar, Carried::Angle, v),
        Event::Plane => turn_polar(out, line, text.polar, Carried::Plane, v),
        Event::Polar => begin_polar(alloc, out, line),
        Event::PolarMotion => end_motion(out, line),
        Event::PolarPoint => end_point(alloc, out, line),
        Event::Bind | Event::Origin | Event::Depth => Ok(()),
        Event::Unreported => leave_out(out, line),
        Event::Origins => begin_origins(out, text.datums, line),
        Event::CaseValue => add_value(alloc, out, line, around.depth, v),
        Event::CaseBegins => begin_block(out, text.several, line, around.depth),
        Event::Ends => go_to_end(out, line),
        Event::All => lose_everything(alloc, out, line),
    }
}

/// An assignment: an event, or one to a variable of the text.
pub(crate) fn assign_or(
    alloc: Global,
    out: &mut Vec<Guarded>,
    line: u32,
    expansion: u32,
    text: Text,
    around: Around,
    names: &Names,
    target: Target,
    value: Expr,
) -> Result<(), NoMemory>
    ensures { OnOk result (out.new.items ≡ out.old.items ++ assigns_or text around line expansion names.now target value (event_named target.name)) }
{
    match Event::named(target.name.as_bytes()) {
        Some(event) => happen(
            alloc, out, line, expansion, text, around, names, event, value,
        ),
        None => assign(alloc, out, line, expansion, names, target, value),
    }
}
