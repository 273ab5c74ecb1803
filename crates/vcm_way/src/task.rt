//! Where a statement sends the probe.

ghost use Rattle.std.specs.Prelude.{◌≡◌, ℕ};
ghost use Rattle.vcm_num.specs.declared.number.Kind.{Kind};
ghost use Rattle.vcm_num.specs.declared.point.Point.{Point as Place};
ghost use Rattle.vcm_spec.specs.Effect.{measured_direction};
ghost use Rattle.vcm_spec.specs.Fitting.{AreLengths};
ghost use Rattle.vcm_spec.specs.Outcome.{Answers, calculated};
ghost use Rattle.vcm_spec.specs.declared.simple.Simple.TheVariants.{Goto, PtMeas};
ghost use Rattle.vcm_spec.specs.Value.{items_value};
ghost use Rattle.vcm_code.specs.declared.op.Op.TheVariants.{Plain};
ghost use Rattle.vcm_code.specs.Checks.{HasItems, OpFits};
ghost use Rattle.vcm_way.specs.Tasks.{task_of};
ghost use Rattle.vcm_way.specs.inner.Told.{point_in};

use vcm_code::Op;
use vcm_fields::{BorrowedOp, ItemSlice, TextSlice};
use vcm_loader::items_value;
use vcm_num::{Axis, Fault, Point};
use vcm_spec::{Missing, Simple, Stop};
use vcm_state::World;

/// A measurement: the machine point of the nominal place, the direction that the tip comes from, and the index of the feature.
#[derive(Clone, Copy)]
pub struct Measuring {
    pub nominal: Point,
    pub toward: Axis,
    pub feature: u16,
}

/// Where a statement sends the probe.
#[derive(Clone, Copy)]
pub enum Task {
    Nowhere,
    Straight(Point),
    Measure(Measuring),
}

// The value of an expression in a state of the machine.
//
// Errors: `Overflow` or `DivZero`.
fn value(world: &World, e: &ItemSlice<'_>) -> Result<i64, Stop>
    requires { (k : Kind) × HasItems world.now.tables e.now k }
    ensures { Answers (calculated (items_value world.now.state.variables e.now)) result }
{
    match items_value(e, world.variables()) {
        Ok(value) => Ok(value),
        Err(Fault::Overflow) => Err(Stop::Overflow),
        Err(Fault::DivZero) => Err(Stop::DivZero),
    }
}

// The machine point of three part coordinates.
//
// Errors: `Overflow` or `DivZero`.
fn machine_point(
    world: &World,
    x: &ItemSlice<'_>,
    y: &ItemSlice<'_>,
    z: &ItemSlice<'_>,
) -> Result<Point, Stop>
    requires { AreLengths (HasItems world.now.tables) x.now y.now z.now }
    ensures { Answers (point_in world.now.state x.now y.now z.now) result }
{
    let x = value(world, x)?;
    let y = value(world, y)?;
    let z = value(world, z)?;
    world.frame().apply(Point::new(x, y, z))
}

// The direction of a measurement: the given one, or the declared feature's.
//
// Errors: `Undefined` where none is given and the feature isn't declared.
fn direction(world: &World, feature: u16, toward: Option<Axis>) -> Result<Axis, Stop>
    ensures { Answers (measured_direction world.now.state feature toward) result }
{
    match toward {
        Some(direction) => Ok(direction),
        None => match world.nominal().get(usize::from(feature)) {
            Some(Some(declared)) => Ok(declared.toward),
            Some(None) => Err(Stop::Undefined(Missing::Nominal(feature))),
            None => Err(Stop::Undefined(Missing::Nominal(feature))),
        },
    }
}

// A GOTO.
fn straight(world: &World, x: &ItemSlice<'_>, y: &ItemSlice<'_>, z: &ItemSlice<'_>) -> Task
    requires { AreLengths (HasItems world.now.tables) x.now y.now z.now }
    ensures { (home : Place) → result ≡ task_of home world.now.state (Plain (Goto x.now y.now z.now)) }
{
    match machine_point(world, x, y, z) {
        Ok(to) => Task::Straight(to),
        Err(_) => Task::Nowhere,
    }
}

// A PTMEAS.
fn measure(
    world: &World,
    feature: u16,
    x: &ItemSlice<'_>,
    y: &ItemSlice<'_>,
    z: &ItemSlice<'_>,
    toward: Option<Axis>,
) -> Task
    requires { AreLengths (HasItems world.now.tables) x.now y.now z.now }
    ensures { (home : Place) → result ≡ task_of home world.now.state (Plain (PtMeas feature x.now y.now z.now toward)) }
{
    match direction(world, feature, toward) {
        Ok(toward) => match machine_point(world, x, y, z) {
            Ok(nominal) => Task::Measure(Measuring {
                nominal,
                toward: world.frame().direction(toward),
                feature,
            }),
            Err(_) => Task::Nowhere,
        },
        Err(_) => Task::Nowhere,
    }
}

// Where a simple statement does.
fn simple_task(world: &World, home: Point, what: &Simple<ItemSlice<'_>, TextSlice<'_>>) -> Task
    requires { (count : ℕ) × OpFits world.now.tables count (Plain what.now) }
    ensures { result ≡ task_of home world.now.state (Plain what.now) }
{
    match what {
        Simple::Goto(x, y, z) => straight(world, x, y, z),
        Simple::GoHome => Task::Straight(home),
        Simple::PtMeas(feature, x, y, z, toward) => measure(world, *feature, x, y, z, *toward),
        _ => Task::Nowhere,
    }
}

/// Where a statement sends the probe, from a state of the machine; nowhere, where it stops before that is known.
pub(crate) fn task_of(world: &World, home: Point, op: &BorrowedOp<'_>) -> Task
    requires { (count : ℕ) × OpFits world.now.tables count op.now }
    ensures { result ≡ task_of home world.now.state op.now }
{
    match op {
        Op::Plain(what) => simple_task(world, home, what),
        _ => Task::Nowhere,
    }
}
