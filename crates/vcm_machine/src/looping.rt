//! Loops: DO and ENDDO.

ghost use Rattle.std.specs.Prelude.{◌≡◌, ◌<◌, ◌+◌, ◌^◌, Some, ℕ, slice_get, slice_set, pos, int_lt, if◌then◌else◌};
ghost use Rattle.vcm_num.specs.declared.number.Kind.{Kind};
ghost use Rattle.vcm_spec.specs.Setup.{Setup};
ghost use Rattle.vcm_spec.specs.World.{with_variable};
ghost use Rattle.vcm_spec.specs.Control.{variable as present_value, with_next_index, is_zero, is_past};
ghost use Rattle.vcm_spec.specs.Fitting.{kinds};
ghost use Rattle.vcm_state.specs.Carried.{Carried};
ghost use Rattle.vcm_code.specs.declared.op.Op.TheVariants.{Do, EndDo};
ghost use Rattle.vcm_code.specs.CodeTable.{pair as saved_pair, do_op};
ghost use Rattle.vcm_code.specs.Checks.{HasItems};
ghost use Rattle.vcm_fields.specs.Readers.{Begins, OfFirst, both, variable_at, pair_at as pair_reader, three_at, target_at};
ghost use Rattle.vcm_machine.specs.Going.{HasTurned};

use crate::acting::value;
use vcm_code::Pair;
use vcm_fields::{known, known_long, known_short, pair};
use vcm_items::BoundedStack;
use vcm_num::{Fault, add};
use vcm_spec::Stop;
use vcm_state::World;

// The value of a variable.
fn present(world: &World, variable: u16) -> i64
    requires { slice_get (kinds world.now.tables) variable ≡ Some Kind.Int }
    ensures { result ≡ present_value world.now.state variable }
{
    world.variables()[usize::from(variable)]
}

// The index of a loop gets a value.
fn set_index(world: &mut World, variable: u16, value: i64)
    requires { slice_get (kinds world.old.tables) variable ≡ Some Kind.Int }
    ensures state { world.new.state ≡ with_variable world.old.state variable value }
    ensures tables { world.new.tables ≡ world.old.tables }
    ensures stop { world.new.state.stop ≡ world.old.state.stop }
{
    let _done = world.assign(variable, value);
}

// Whether the index is past the limit.
fn is_past(world: &World, variable: u16, limit: i64, increment: i64) -> bool
    requires { slice_get (kinds world.now.tables) variable ≡ Some Kind.Int }
    ensures { result ≡ is_past world.now.state variable limit increment }
{
    goes_past(present(world, variable), limit, increment)
}

// Whether a value is past the limit.
fn goes_past(value: i64, limit: i64, increment: i64) -> bool
    ensures { result ≡ (if int_lt (pos 0) increment then int_lt limit value else int_lt value limit) }
{
    if increment > 0 {
        value > limit
    } else {
        value < limit
    }
}

// Whether an increment is zero.
#[tactic(auto, unfolding(vcm_spec::specs::Control::is_zero))]
fn is_zero(increment: i64) -> bool
    ensures { result ≡ is_zero increment }
{
    increment == 0
}

// The increment is added to the index.
fn advance(world: &mut World, variable: u16, increment: i64) -> Result<(), Stop>
    requires { slice_get (kinds world.old.tables) variable ≡ Some Kind.Int }
    ensures carried { Carried (with_next_index world.old.state variable increment) world.old.state world.new.state result }
    ensures tables { world.new.tables ≡ world.old.tables }
    ensures stop { world.new.state.stop ≡ world.old.state.stop }
{
    let present = present(world, variable);
    match add(present, increment) {
        Ok(sum) => {
            set_index(world, variable, sum);
            Ok(())
        }
        Err(Fault::Overflow) => Err(Stop::Overflow),
        Err(Fault::DivZero) => Err(Stop::DivZero),
    }
}

// A pair gets a limit and an increment.
fn set_pair(pairs: &mut [Pair; 32], pair: u8, limit: i64, increment: i64)
    requires { pair < 32 }
    ensures { pairs.new ≡ slice_set pairs.old pair (saved_pair limit increment) }
{
    pairs[usize::from(pair)] = Pair { limit, increment };
}

// A pair.
fn pair_at(pairs: &[Pair; 32], pair: u8) -> Pair
    requires { pair < 32 }
    ensures { slice_get pairs.now pair ≡ Some result }
{
    pairs[usize::from(pair)]
}

/// DO: its values are evaluated, its pair is set, and its variable gets the initial value. The number of the next statement: its exit where
/// the initial value is past the limit.
///
/// Errors: a fault of the initial value, the limit or the increment, in this order; `ZeroStep` where the increment is 0. All is then as it was.
#[inline(never)]
pub(crate) fn begin(
    stack: &mut BoundedStack<i64>,
    world: &mut World,
    pairs: &mut [Pair; 32],
    next: u32,
    bytes: &[u8],
) -> Result<u32, Stop>
    requires operands { Begins (both variable_at (both pair_reader (both three_at target_at))) (λ o. (slice_get (kinds world.old.tables) o.0 ≡ Some Kind.Int)
        × (o.1.0 < 32) × HasItems world.old.tables o.1.1.0.0 Kind.Int × HasItems world.old.tables o.1.1.0.1.0 Kind.Int × HasItems world.old.tables o.1.1.0.1.1 Kind.Int) bytes.now }
    requires next { next + 1 < 2 ^ 32 }
    ensures turned { (setup : Setup) → (line : ℕ) → OfFirst (both variable_at (both pair_reader (both three_at target_at))) bytes.now (λ o rest.
        HasTurned (do_op setup (Do o.0 o.1.0 o.1.1.0.0 o.1.1.0.1.0 o.1.1.0.1.1 o.1.1.1) line world.old.state next pairs.old)
        next line world.old.state world.new.state pairs.old pairs.new result) }
    ensures tables { world.new.tables ≡ world.old.tables }
    ensures stop { world.new.state.stop ≡ world.old.state.stop }
{
    let (variable, rest) = known_short(bytes);
    let (pair, rest) = known(pair(rest));
    let (initial, rest) = value(stack, world, rest)?;
    let (limit, rest) = value(stack, world, rest)?;
    let (increment, rest) = value(stack, world, rest)?;
    if is_zero(increment) {
        return Err(Stop::ZeroStep);
    }
    set_index(world, variable, initial);
    set_pair(pairs, pair, limit, increment);
    if is_past(world, variable, limit, increment) {
        let (exit, _) = known_long(rest);
        Ok(exit)
    } else {
        Ok(next + 1)
    }
}

/// ENDDO: the saved increment is added to its variable. The number of the next statement: the first of the body, or the one behind ENDDO where
/// the variable is past the saved limit.
///
/// Errors: `ZeroStep` where the saved increment is 0; `Overflow`. All is then as it was.
pub(crate) fn turn(
    world: &mut World,
    pairs: &[Pair; 32],
    next: u32,
    bytes: &[u8],
) -> Result<u32, Stop>
    requires operands { Begins (both variable_at (both pair_reader target_at)) (λ o. (slice_get (kinds world.old.tables) o.0 ≡ Some Kind.Int) × (o.1.0 < 32)) bytes.now }
    requires next { next + 1 < 2 ^ 32 }
    ensures turned { (setup : Setup) → (line : ℕ) → OfFirst (both variable_at (both pair_reader target_at)) bytes.now (λ o rest.
        HasTurned (do_op setup (EndDo o.0 o.1.0 o.1.1) line world.old.state next pairs.now) next line world.old.state world.new.state pairs.now pairs.now result) }
    ensures tables { world.new.tables ≡ world.old.tables }
    ensures stop { world.new.state.stop ≡ world.old.state.stop }
{
    let (variable, rest) = known_short(bytes);
    let (pair, rest) = known(pair(rest));
    let saved = pair_at(pairs, pair);
    if is_zero(saved.increment) {
        return Err(Stop::ZeroStep);
    }
    advance(world, variable, saved.increment)?;
    if is_past(world, variable, saved.limit, saved.increment) {
        Ok(next + 1)
    } else {
        let (target, _) = known_long(rest);
        Ok(target)
    }
}
