//! Carrying out a simple statement while its operands are read from the image: its expressions are evaluated, and then it has its effect. Moves,
//! assignments and texts.

ghost use Rattle.std.specs.Prelude.{◌≡◌, Some, IfOk, IfErr, slice_get};
ghost use Rattle.vcm_num.specs.declared.number.Kind.{Kind};
ghost use Rattle.vcm_spec.specs.Workpiece.{Workpiece};
ghost use Rattle.vcm_spec.specs.Setup.{setup_of};
ghost use Rattle.vcm_spec.specs.Value.{items_value, is_true};
ghost use Rattle.vcm_spec.specs.Outcome.{Gives, Stops, calculated};
ghost use Rattle.vcm_spec.specs.declared.simple.Simple.TheVariants.{Goto, GoHome, Assign, Text};
ghost use Rattle.vcm_spec.specs.Effect.{effect};
ghost use Rattle.vcm_spec.specs.Control.{test_in};
ghost use Rattle.vcm_spec.specs.Fitting.{kinds, AreLengths};
ghost use Rattle.vcm_items.specs.Slots.{IsTruth};
ghost use Rattle.vcm_state.specs.Carried.{Carried, CarriedOrHalted};
ghost use Rattle.vcm_code.specs.Checks.{HasItems};
ghost use Rattle.vcm_fields.specs.Readers.{Begins, OfFirst, both, variable_at, expression_at, three_at, text_at};
ghost use Rattle.vcm_machine.specs.inner.Lengths.{lengths_in};

use vcm_fields::{known_short, known_text};
use vcm_items::BoundedStack;
use vcm_loader::value_at;
use vcm_motion::Part;
use vcm_num::Fault;
use vcm_spec::Stop;
use vcm_state::{Halt, World};

/// The value of the expression that the bytes begin with, in a state of the machine: a length in micrometres, a truth value as 0 or 1. With it the
/// bytes behind it.
///
/// Errors: `Overflow` or `DivZero`, whichever comes first.
#[inline(always)]
fn value_here<'a>(
    stack: &mut BoundedStack<i64>,
    world: &World,
    bytes: &'a [u8],
) -> Result<(i64, &'a [u8]), Stop>
    requires { (k : Kind) × Begins expression_at (λ e. HasItems world.now.tables e k) bytes.now }
    ensures value { IfOk result (λ x. OfFirst expression_at bytes.now (λ e rest. (calculated (items_value world.now.state.variables e) ≡ Gives x.0) × (x.1.now ≡ rest))) }
    ensures fault { IfErr result (λ why. OfFirst expression_at bytes.now (λ e rest. calculated (items_value world.now.state.variables e) ≡ Stops why)) }
    ensures truth { IfOk result (λ x. Begins expression_at (λ e. HasItems world.now.tables e Kind.Bool) bytes.now → IsTruth x.0) }
{
    match value_at(stack, bytes, world.variables()) {
        Ok(found) => Ok(found),
        Err(Fault::Overflow) => Err(Stop::Overflow),
        Err(Fault::DivZero) => Err(Stop::DivZero),
    }
}

/// The same, apart from what calls it.
#[inline(never)]
pub(crate) fn value<'a>(
    stack: &mut BoundedStack<i64>,
    world: &World,
    bytes: &'a [u8],
) -> Result<(i64, &'a [u8]), Stop>
    requires { (k : Kind) × Begins expression_at (λ e. HasItems world.now.tables e k) bytes.now }
    ensures value { IfOk result (λ x. OfFirst expression_at bytes.now (λ e rest. (calculated (items_value world.now.state.variables e) ≡ Gives x.0) × (x.1.now ≡ rest))) }
    ensures fault { IfErr result (λ why. OfFirst expression_at bytes.now (λ e rest. calculated (items_value world.now.state.variables e) ≡ Stops why)) }
{
    value_here(stack, world, bytes)
}

/// The value of the expression that the bytes begin with, where nothing behind it is read.
///
/// Errors: `Overflow` or `DivZero`, whichever comes first.
#[inline(never)]
pub(crate) fn last_value(
    stack: &mut BoundedStack<i64>,
    world: &World,
    bytes: &[u8],
) -> Result<i64, Stop>
    requires { (k : Kind) × Begins expression_at (λ e. HasItems world.now.tables e k) bytes.now }
    ensures value { IfOk result (λ x. OfFirst expression_at bytes.now (λ e rest. calculated (items_value world.now.state.variables e) ≡ Gives x)) }
    ensures fault { IfErr result (λ why. OfFirst expression_at bytes.now (λ e rest. calculated (items_value world.now.state.variables e) ≡ Stops why)) }
    ensures truth { IfOk result (λ x. Begins expression_at (λ e. HasItems world.now.tables e Kind.Bool) bytes.now → IsTruth x) }
{
    let (value, _) = value_here(stack, world, bytes)?;
    Ok(value)
}

/// The truth value of the test that the bytes begin with, in a state of the machine, and the bytes behind it.
///
/// Errors: `Overflow` or `DivZero`, whichever comes first.
#[inline(never)]
pub(crate) fn test<'a>(
    stack: &mut BoundedStack<i64>,
    world: &World,
    bytes: &'a [u8],
) -> Result<(bool, &'a [u8]), Stop>
    requires { (k : Kind) × Begins expression_at (λ e. HasItems world.now.tables e k) bytes.now }
    ensures value { IfOk result (λ x. OfFirst expression_at bytes.now (λ e rest. (test_in items_value world.now.state e ≡ Gives x.0) × (x.1.now ≡ rest))) }
    ensures fault { IfErr result (λ why. OfFirst expression_at bytes.now (λ e rest. test_in items_value world.now.state e ≡ Stops why)) }
{
    let (value, rest) = value_here(stack, world, bytes)?;
    Ok((is_true(value), rest))
}

// A number as a truth value.
fn is_true(value: i64) -> bool
    ensures { result ≡ is_true value }
{
    value != 0
}

/// Three lengths along x, y and z, in micrometres.
#[derive(Clone, Copy)]
pub(crate) struct Lengths {
    pub(crate) x: i64,
    pub(crate) y: i64,
    pub(crate) z: i64,
}

/// The values of the three expressions that the bytes begin with, which are evaluated in the order x, y, z, and the bytes behind them.
///
/// Errors: `Overflow` or `DivZero`, whichever comes first.
#[inline(never)]
pub(crate) fn three_lengths<'a>(
    stack: &mut BoundedStack<i64>,
    world: &World,
    bytes: &'a [u8],
) -> Result<(Lengths, &'a [u8]), Stop>
    requires { Begins three_at (λ o. AreLengths (HasItems world.now.tables) o.0 o.1.0 o.1.1) bytes.now }
    ensures lengths { IfOk result (λ x. OfFirst three_at bytes.now (λ o rest. (lengths_in world.now.state o.0 o.1.0 o.1.1 ≡ Gives x.0) × (x.1.now ≡ rest))) }
    ensures fault { IfErr result (λ why. OfFirst three_at bytes.now (λ o rest. lengths_in world.now.state o.0 o.1.0 o.1.1 ≡ Stops why)) }
{
    let (x, bytes) = value_here(stack, world, bytes)?;
    let (y, bytes) = value_here(stack, world, bytes)?;
    let (z, bytes) = value_here(stack, world, bytes)?;
    Ok((Lengths { x, y, z }, bytes))
}

/// GOTO: x, y and z are evaluated in this order, and the first fault wins.
///
/// Errors: a fault of an expression, and those of the move. The state is then as it was.
pub(crate) fn go_to<P: Part>(
    stack: &mut BoundedStack<i64>,
    part: &P,
    world: &mut World,
    bytes: &[u8],
) -> Result<(), Stop>
    requires { Begins three_at (λ o. AreLengths (HasItems world.old.tables) o.0 o.1.0 o.1.1) bytes.now }
    ensures carried { OfFirst three_at bytes.now (λ o rest. Carried (effect items_value (setup_of (P.part part.now) world.old.tables) world.old.state (Goto o.0 o.1.0 o.1.1)) world.old.state world.new.state result) }
    ensures tables { world.new.tables ≡ world.old.tables }
    ensures stop { world.new.state.stop ≡ world.old.state.stop }
{
    let (to, _) = three_lengths(stack, world, bytes)?;
    world.goto(part, to.x, to.y, to.z)
}

/// GOHOME.
///
/// Errors: those of the move. The state is then as it was.
#[inline(never)]
pub(crate) fn go_home<P: Part>(part: &P, world: &mut World) -> Result<(), Stop>
    ensures carried { Carried (effect items_value (setup_of (P.part part.now) world.old.tables) world.old.state GoHome) world.old.state world.new.state result }
    ensures tables { world.new.tables ≡ world.old.tables }
    ensures stop { world.new.state.stop ≡ world.old.state.stop }
{
    world.go_home(part)
}

/// ASSIGN: the variable at an index gets the value of an expression.
///
/// Errors: a fault of the expression. The state is then as it was.
pub(crate) fn assign(
    stack: &mut BoundedStack<i64>,
    world: &mut World,
    bytes: &[u8],
) -> Result<(), Stop>
    requires { Begins (both variable_at expression_at) (λ o. (k : Kind) × (slice_get (kinds world.old.tables) o.0 ≡ Some k) × HasItems world.old.tables o.1 k) bytes.now }
    ensures carried { (part : Workpiece) → OfFirst (both variable_at expression_at) bytes.now (λ o rest.
        Carried (effect items_value (setup_of part world.old.tables) world.old.state (Assign o.0 o.1)) world.old.state world.new.state result) }
    ensures tables { world.new.tables ≡ world.old.tables }
    ensures stop { world.new.state.stop ≡ world.old.state.stop }
{
    let (variable, rest) = known_short(bytes);
    let value = last_value(stack, world, rest)?;
    world.assign(variable, value)
}

/// TEXT: one more output line.
///
/// Errors: the stop `OutputFull`, or want of memory. The state is then as it was.
#[inline(never)]
pub(crate) fn print(world: &mut World, bytes: &[u8]) -> Result<(), Halt>
    requires { Begins text_at (λ t. Unit {0}) bytes.now }
    ensures carried { (part : Workpiece) → OfFirst text_at bytes.now (λ t rest.
        CarriedOrHalted (effect items_value (setup_of part world.old.tables) world.old.state (Text t)) world.old.state world.new.state result) }
    ensures tables { world.new.tables ≡ world.old.tables }
    ensures stop { world.new.state.stop ≡ world.old.state.stop }
{
    world.text(known_text(bytes).as_bytes())
}
