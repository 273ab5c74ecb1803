//! Carrying out the statements that tell features: OBTAIN and OUTPUT.

ghost use Rattle.std.specs.Prelude.{◌≡◌, ◌<◌, length, slice_get, Some};
ghost use Rattle.vcm_num.specs.declared.number.Kind.TheVariants.{Real};
ghost use Rattle.vcm_spec.specs.Workpiece.{Workpiece};
ghost use Rattle.vcm_spec.specs.Setup.{setup_of};
ghost use Rattle.vcm_spec.specs.Value.{items_value};
ghost use Rattle.vcm_spec.specs.declared.simple.Simple.TheVariants.{Obtain, Output};
ghost use Rattle.vcm_spec.specs.Effect.{effect};
ghost use Rattle.vcm_spec.specs.Fitting.{kinds};
ghost use Rattle.vcm_state.specs.Carried.{Carried, CarriedOrHalted};
ghost use Rattle.vcm_fields.specs.Readers.{Begins, OfFirst, both, variable_at, source_at, part_at};

use std::alloc::Global;
use vcm_fields::{known, known_short, part, source};
use vcm_spec::Stop;
use vcm_state::{Halt, World};

/// OBTAIN: the variable at an index gets a word of a feature.
///
/// Errors: `Undefined` where the feature isn't declared, or isn't measured. The state is then as it was.
#[inline(never)]
pub(crate) fn obtain(world: &mut World, bytes: &[u8]) -> Result<(), Stop>
    requires { Begins (both variable_at (both source_at (both variable_at part_at)))
        (λ o. (slice_get (kinds world.old.tables) o.0 ≡ Some Real) × (o.1.1.0 < length world.old.tables.features)) bytes.now }
    ensures carried { (setting : Workpiece) → OfFirst (both variable_at (both source_at (both variable_at part_at))) bytes.now (λ o rest.
        Carried (effect items_value (setup_of setting world.old.tables) world.old.state (Obtain o.0 o.1.0 o.1.1.0 o.1.1.1)) world.old.state world.new.state result) }
    ensures tables { world.new.tables ≡ world.old.tables }
    ensures stop { world.new.state.stop ≡ world.old.state.stop }
{
    let (variable, rest) = known_short(bytes);
    let (source, rest) = known(source(rest));
    let (feature, rest) = known_short(rest);
    let (word, _) = known(part(rest));
    world.obtain(variable, source, feature, word)
}

/// OUTPUT: one more output line, which tells a feature.
///
/// Errors: the stops `Undefined` and `OutputFull`, or want of memory. The state is then as it was.
#[inline(never)]
pub(crate) fn output(alloc: Global, world: &mut World, bytes: &[u8]) -> Result<(), Halt>
    requires { Begins (both source_at variable_at) (λ o. o.1 < length world.old.tables.features) bytes.now }
    ensures carried { (setting : Workpiece) → OfFirst (both source_at variable_at) bytes.now (λ o rest.
        CarriedOrHalted (effect items_value (setup_of setting world.old.tables) world.old.state (Output o.0 o.1)) world.old.state world.new.state result) }
    ensures tables { world.new.tables ≡ world.old.tables }
    ensures stop { world.new.state.stop ≡ world.old.state.stop }
{
    let (source, rest) = known(source(bytes));
    let (feature, _) = known_short(rest);
    world.output(alloc, source, feature)
}
