//! Carrying out the statements of frames: TRANS, ROTATE and RECALL.

ghost use Rattle.std.specs.Prelude.{◌≡◌, ◌<◌, length};
ghost use Rattle.vcm_spec.specs.Workpiece.{Workpiece};
ghost use Rattle.vcm_spec.specs.Setup.{setup_of};
ghost use Rattle.vcm_spec.specs.Value.{items_value};
ghost use Rattle.vcm_spec.specs.declared.simple.Simple.TheVariants.{Trans, Rotate, Recall};
ghost use Rattle.vcm_spec.specs.Effect.{effect};
ghost use Rattle.vcm_spec.specs.Fitting.{AreLengths};
ghost use Rattle.vcm_state.specs.Carried.{Carried};
ghost use Rattle.vcm_code.specs.Checks.{HasItems};
ghost use Rattle.vcm_fields.specs.Readers.{Begins, OfFirst, both, variable_at, three_at, turn_at, quarters_at};

use crate::acting::three_lengths;
use vcm_fields::{known, known_short, quarters, turn};
use vcm_items::BoundedStack;
use vcm_spec::Stop;
use vcm_state::World;

/// TRANS: the current frame is shifted by three lengths, which are evaluated in the order x, y, z, and saved at an index.
///
/// Errors: the first fault of an expression, and `Overflow` of the new origin. The state is then as it was.
#[inline(never)]
pub(crate) fn shift(
    stack: &mut BoundedStack<i64>,
    world: &mut World,
    bytes: &[u8],
) -> Result<(), Stop>
    requires { Begins (both variable_at three_at) (λ o. (o.0 < length world.old.tables.frames) × AreLengths (HasItems world.old.tables) o.1.0 o.1.1.0 o.1.1.1) bytes.now }
    ensures carried { (part : Workpiece) → OfFirst (both variable_at three_at) bytes.now (λ o rest.
        Carried (effect items_value (setup_of part world.old.tables) world.old.state (Trans o.0 o.1.0 o.1.1.0 o.1.1.1)) world.old.state world.new.state result) }
    ensures tables { world.new.tables ≡ world.old.tables }
    ensures stop { world.new.state.stop ≡ world.old.state.stop }
{
    let (frame, rest) = known_short(bytes);
    let (by, _) = three_lengths(stack, world, rest)?;
    world.trans(frame, by.x, by.y, by.z)
}

/// ROTATE: the current frame is turned about one of its axes, and saved at an index. It always answers `Ok`.
#[inline(never)]
pub(crate) fn rotate(world: &mut World, bytes: &[u8]) -> Result<(), Stop>
    requires { Begins (both variable_at (both turn_at quarters_at)) (λ o. o.0 < length world.old.tables.frames) bytes.now }
    ensures carried { (part : Workpiece) → OfFirst (both variable_at (both turn_at quarters_at)) bytes.now (λ o rest.
        Carried (effect items_value (setup_of part world.old.tables) world.old.state (Rotate o.0 o.1.0 o.1.1)) world.old.state world.new.state result) }
    ensures tables { world.new.tables ≡ world.old.tables }
    ensures stop { world.new.state.stop ≡ world.old.state.stop }
{
    let (frame, rest) = known_short(bytes);
    let (axis, rest) = known(turn(rest));
    let (quarters, _) = known(quarters(rest));
    world.rotate(frame, axis, quarters)
}

/// RECALL: the frame that is saved at an index becomes the current one.
///
/// Errors: `Undefined` where none is saved. The state is then as it was.
#[inline(never)]
pub(crate) fn recall(world: &mut World, bytes: &[u8]) -> Result<(), Stop>
    requires { Begins variable_at (λ frame. frame < length world.old.tables.frames) bytes.now }
    ensures carried { (part : Workpiece) → OfFirst variable_at bytes.now (λ frame rest.
        Carried (effect items_value (setup_of part world.old.tables) world.old.state (Recall frame)) world.old.state world.new.state result) }
    ensures tables { world.new.tables ≡ world.old.tables }
    ensures stop { world.new.state.stop ≡ world.old.state.stop }
{
    let (frame, _) = known_short(bytes);
    world.recall(frame)
}
