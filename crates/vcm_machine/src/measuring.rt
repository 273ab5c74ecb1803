//! Carrying out the statements of features and of the probe's settings: FEAT, PTMEAS and SNSET.

ghost use Rattle.std.specs.Prelude.{◌≡◌, ◌<◌, length};
ghost use Rattle.vcm_num.specs.declared.number.Kind.TheVariants.{Real};
ghost use Rattle.vcm_spec.specs.Workpiece.{Workpiece};
ghost use Rattle.vcm_spec.specs.Setup.{setup_of};
ghost use Rattle.vcm_spec.specs.Value.{items_value};
ghost use Rattle.vcm_spec.specs.declared.simple.Simple.TheVariants.{Feat, PtMeas, SnSet};
ghost use Rattle.vcm_spec.specs.Effect.{effect};
ghost use Rattle.vcm_spec.specs.Fitting.{AreLengths};
ghost use Rattle.vcm_state.specs.Carried.{Carried};
ghost use Rattle.vcm_code.specs.Checks.{HasItems};
ghost use Rattle.vcm_fields.specs.Readers.{Begins, OfFirst, both, variable_at, expression_at, three_at, axis_at, direction_at, setting_at};

use crate::acting::{last_value, three_lengths};
use vcm_fields::{axis, direction, known, known_short, setting};
use vcm_items::BoundedStack;
use vcm_motion::Part;
use vcm_spec::Stop;
use vcm_state::World;

/// FEAT: the feature at an index is declared at a point, whose coordinates are evaluated in the order x, y, z.
///
/// Errors: the first fault of an expression. The state is then as it was.
#[inline(never)]
pub(crate) fn declare(
    stack: &mut BoundedStack<i64>,
    world: &mut World,
    bytes: &[u8],
) -> Result<(), Stop>
    requires { Begins (both variable_at (both three_at axis_at)) (λ o. (o.0 < length world.old.tables.features) × AreLengths (HasItems world.old.tables) o.1.0.0 o.1.0.1.0 o.1.0.1.1) bytes.now }
    ensures carried { (part : Workpiece) → OfFirst (both variable_at (both three_at axis_at)) bytes.now (λ o rest.
        Carried (effect items_value (setup_of part world.old.tables) world.old.state (Feat o.0 o.1.0.0 o.1.0.1.0 o.1.0.1.1 o.1.1)) world.old.state world.new.state result) }
    ensures tables { world.new.tables ≡ world.old.tables }
    ensures stop { world.new.state.stop ≡ world.old.state.stop }
{
    let (feature, rest) = known_short(bytes);
    let (at, rest) = three_lengths(stack, world, rest)?;
    let (toward, _) = known(axis(rest));
    world.feat(feature, at.x, at.y, at.z, toward)
}

/// PTMEAS: the feature at an index is measured at a nominal point, whose coordinates are evaluated in the order x, y, z.
///
/// Errors: the first fault of an expression, and those of the measurement. The state is then as it was.
#[inline(never)]
pub(crate) fn measure<P: Part>(
    stack: &mut BoundedStack<i64>,
    part: &P,
    world: &mut World,
    bytes: &[u8],
) -> Result<(), Stop>
    requires { Begins (both variable_at (both three_at direction_at)) (λ o. (o.0 < length world.old.tables.features) × AreLengths (HasItems world.old.tables) o.1.0.0 o.1.0.1.0 o.1.0.1.1) bytes.now }
    ensures carried { OfFirst (both variable_at (both three_at direction_at)) bytes.now (λ o rest.
        Carried (effect items_value (setup_of (P.part part.now) world.old.tables) world.old.state (PtMeas o.0 o.1.0.0 o.1.0.1.0 o.1.0.1.1 o.1.1)) world.old.state world.new.state result) }
    ensures tables { world.new.tables ≡ world.old.tables }
    ensures stop { world.new.state.stop ≡ world.old.state.stop }
{
    let (feature, rest) = known_short(bytes);
    let (nominal, rest) = three_lengths(stack, world, rest)?;
    let (toward, _) = known(direction(rest));
    world.ptmeas(part, feature, nominal.x, nominal.y, nominal.z, toward)
}

/// SNSET: a setting of the probe gets the value of an expression.
///
/// Errors: a fault of the expression, and `BadSetting`. The state is then as it was.
#[inline(never)]
pub(crate) fn set_length(
    stack: &mut BoundedStack<i64>,
    world: &mut World,
    bytes: &[u8],
) -> Result<(), Stop>
    requires { Begins (both setting_at expression_at) (λ o. HasItems world.old.tables o.1 Real) bytes.now }
    ensures carried { (part : Workpiece) → OfFirst (both setting_at expression_at) bytes.now (λ o rest.
        Carried (effect items_value (setup_of part world.old.tables) world.old.state (SnSet o.0 o.1)) world.old.state world.new.state result) }
    ensures tables { world.new.tables ≡ world.old.tables }
    ensures stop { world.new.state.stop ≡ world.old.state.stop }
{
    let (which, rest) = known(setting(bytes));
    let length = last_value(stack, world, rest)?;
    world.snset(which, length)
}
