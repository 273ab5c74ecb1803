//! How a run goes on behind a contact. Nothing here takes memory.

ghost use Rattle.std.specs.Prelude.{◌≡◌, ℕ, IsTrue, Some};
ghost use Rattle.vcm_num.specs.Point.{is_near};
ghost use Rattle.vcm_spec.specs.Effect.{measured_direction};
ghost use Rattle.vcm_spec.specs.Outcome.{Outcome, Answers};
ghost use Rattle.vcm_spec.specs.declared.feature.Feature.{Feature as Measured};
ghost use Rattle.vcm_spec.specs.declared.stop.Stop.TheVariants.{Collision};
ghost use Rattle.vcm_code.specs.Checks.{OpFits};
ghost use Rattle.vcm_way.specs.Steps.{TaskEnds};
ghost use Rattle.vcm_way.specs.Tasks.{task_of};
ghost use Rattle.vcm_contacts.specs.Leading.{toward, feature_at, back_with, measured, aim_by, aim_in, touched_by, touched_in, lead_to, lead_by, lead, IsSound};

use crate::contact::Lead;
use vcm_code::Op;
use vcm_fields::{BorrowedOp, BorrowedStatement};
use vcm_marks::{Mark, Touched};
use vcm_motion::Part;
use vcm_num::{Axis, Point};
use vcm_part::PartData;
use vcm_spec::{Feature, Hit, Missing, MovePhase, Simple, Stop};
use vcm_state::World;
use vcm_way::{look, marks_of_step};

// The direction of a measurement, in part coordinates.
fn measured_direction(world: &World, feature: u16, given: Option<Axis>) -> Result<Axis, Stop>
    ensures { Answers (measured_direction world.now.state feature given) result }
{
    match given {
        Some(direction) => Ok(direction),
        None => match world.nominal().get(usize::from(feature)) {
            Some(Some(declared)) => Ok(declared.toward),
            Some(None) => Err(Stop::Undefined(Missing::Nominal(feature))),
            None => Err(Stop::Undefined(Missing::Nominal(feature))),
        },
    }
}

// A move or an approach to an aim is taken as done.
fn toward<P: Part>(part: &P, aim: Point) -> Lead
    ensures { result ≡ toward (P.part part.now) aim }
{
    if part.inside(aim) {
        Lead::On(aim)
    } else {
        Lead::Again(aim)
    }
}

// The feature of this index, measured where the tip touched.
fn feature_at(
    world: &World,
    feature: u16,
    given: Option<Axis>,
    touched: Point,
) -> Result<Feature, Stop>
    ensures { Answers (feature_at world.now.state feature given touched) result }
{
    let toward = measured_direction(world, feature, given)?;
    let at = world.frame().invert(touched)?;
    Ok(Feature { at, toward })
}

// Back to an aim, with the feature of this index, or the stop.
fn back_with(aim: Point, index: u16, feature: Result<Feature, Stop>) -> Lead
    ensures { (outcome : Outcome Measured) → Answers outcome feature → result ≡ back_with aim index outcome }
{
    match feature {
        Ok(feature) => Lead::Back(aim, index, feature),
        Err(why) => Lead::Stops(why),
    }
}

// A way back to an aim, behind a touch, is taken as done.
fn measured(world: &World, op: &BorrowedOp<'_>, touched: Touched, aim: Point) -> Lead
    ensures { result ≡ measured world.now.state op.now touched aim }
{
    match op {
        Op::Plain(Simple::PtMeas(index, _, _, _, given)) => {
            back_with(aim, *index, feature_at(world, *index, *given, touched.at))
        }
        _ => Lead::Stops(Stop::Missed),
    }
}

// Where the way of a contact leads.
fn aim_by(mark: Mark) -> Option<Point>
    ensures { result ≡ aim_by mark }
{
    match mark {
        Mark::Meets(met) => Some(met.aim),
        Mark::Goes(_) => None,
        Mark::Touches(_) => None,
    }
}

// Where the way of the contact leads that is the last mark.
fn aim_in(marks: &[Mark]) -> Option<Point>
    ensures { result ≡ aim_in marks.now }
{
    match marks.last() {
        Some(mark) => aim_by(*mark),
        None => None,
    }
}

// A touched point.
fn touched_by(mark: Mark) -> Option<Touched>
    ensures { result ≡ touched_by mark }
{
    match mark {
        Mark::Touches(touched) => Some(touched),
        Mark::Goes(_) => None,
        Mark::Meets(_) => None,
    }
}

// What is touched before a way back.
fn touched_in(marks: &[Mark]) -> Option<Touched>
    ensures { result ≡ touched_in marks.now }
{
    match marks.get(2) {
        Some(mark) => touched_by(*mark),
        None => None,
    }
}

// On a way to this aim, behind a touch or before.
fn lead_to<P: Part>(
    part: &P,
    world: &World,
    op: &BorrowedOp<'_>,
    aim: Point,
    touched: Option<Touched>,
) -> Lead
    ensures { result ≡ lead_to (P.part part.now) world.now.state op.now aim touched }
{
    match touched {
        Some(touched) => measured(world, op, touched, aim),
        None => toward(part, aim),
    }
}

// By the marks of a step.
fn lead_by<P: Part>(
    part: &P,
    world: &World,
    op: &BorrowedOp<'_>,
    phase: MovePhase,
    hit: Hit,
    marks: &[Mark],
) -> Lead
    ensures { result ≡ lead_by (P.part part.now) world.now.state op.now phase hit (aim_in marks.now) (touched_in marks.now) }
{
    match aim_in(marks) {
        Some(aim) => lead_to(part, world, op, aim, touched_in(marks)),
        None => Lead::Stops(Stop::Collision(phase, hit)),
    }
}

// How a run goes on behind a statement that meets a block, by what its step adds to the way.
fn lead_of<P: Part>(
    part: &P,
    blocks: &PartData,
    world: &World,
    statement: &BorrowedStatement<'_>,
    phase: MovePhase,
    hit: Hit,
) -> Lead
    requires tie { P.part part.now ≡ blocks.now }
    requires fits { (count : ℕ) × OpFits world.now.tables count statement.now.op }
    requires near { IsTrue (is_near world.now.state.position) }
    requires ends { TaskEnds blocks.now world.now.state.position world.now.state.settings (task_of blocks.now.bounds.home world.now.state statement.now.op) (Some (Collision phase hit)) }
    ensures { result ≡ lead blocks.now world.now.state statement.now.op phase hit }
{
    let before = look(world, blocks.bounds().home, statement);
    let stop = Stop::Collision(phase, hit);
    let marks = marks_of_step(part, blocks, &before, Some(stop));
    lead_by(part, world, &statement.op, phase, hit, marks.as_slice())
}

/// How a run goes on behind a statement that meets a block in a state of the machine, beside a workpiece whose blocks are given too.
pub fn lead<P: Part>(
    part: &P,
    blocks: &PartData,
    world: &World,
    statement: &BorrowedStatement<'_>,
    phase: MovePhase,
    hit: Hit,
) -> Lead
    requires tie { P.part part.now ≡ blocks.now }
    requires fits { (count : ℕ) × OpFits world.now.tables count statement.now.op }
    requires near { IsTrue (is_near world.now.state.position) }
    requires ends { TaskEnds blocks.now world.now.state.position world.now.state.settings (task_of blocks.now.bounds.home world.now.state statement.now.op) (Some (Collision phase hit)) }
    ensures is { result ≡ lead blocks.now world.now.state statement.now.op phase hit }
    ensures sound { IsSound blocks.now world.now.tables statement.now.op result }
{
    // It is called for what it tells of the workpiece: that it is valid.
    let _bounds = blocks.bounds();
    lead_of(part, blocks, world, statement, phase, hit)
}
