//! SELECT.

ghost use Rattle.std.specs.Prelude.{◌≡◌, ℕ, List};
ghost use Rattle.vcm_num.specs.declared.number.Kind.{Kind};
ghost use Rattle.vcm_spec.specs.Setup.{Setup};
ghost use Rattle.vcm_code.specs.declared.pair.Pair.{Pair};
ghost use Rattle.vcm_code.specs.declared.op.Op.TheVariants.{Select};
ghost use Rattle.vcm_code.specs.CodeTable.{target_for as target_of, do_op};
ghost use Rattle.vcm_code.specs.Checks.{HasItems};
ghost use Rattle.vcm_fields.specs.Readers.{Begins, OfFirst, both, times, expression_at, branch_at, branches_at, target_at};
ghost use Rattle.vcm_machine.specs.Going.{HasTurned};

use crate::acting::value;
use vcm_fields::{known_long, known_short, known_signed};
use vcm_items::BoundedStack;
use vcm_spec::Stop;
use vcm_state::World;

// Where a SELECT goes with a value: to the target of the first branch that has it, otherwise to its last target. So many branches stand in front of
// the last target; the value of each is compared where it lies.
fn target_for(value: i64, count: u16, bytes: &[u8]) -> u32
    requires { Begins (both (times branch_at count) target_at) (λ o. Unit {0}) bytes.now }
    ensures { OfFirst (both (times branch_at count) target_at) bytes.now (λ o rest. result ≡ target_of value o.0 o.1) }
{
    let mut rest = bytes;
    for _ in 0..count {
        let (found, after) = known_signed(rest);
        let (target, behind) = known_long(after);
        if value == found {
            return target;
        }
        rest = behind;
    }
    let (last, _) = known_long(rest);
    last
}

/// SELECT: the number of the next statement.
///
/// Errors: a fault of its value. All is then as it was.
#[inline(never)]
pub(crate) fn select(
    stack: &mut BoundedStack<i64>,
    world: &World,
    next: u32,
    bytes: &[u8],
) -> Result<u32, Stop>
    requires { Begins (both expression_at (both branches_at target_at)) (λ o. HasItems world.now.tables o.0 Kind.Int) bytes.now }
    ensures { (setup : Setup) → (line : ℕ) → (ps : List Pair) → OfFirst (both expression_at (both branches_at target_at)) bytes.now (λ o rest.
        HasTurned (do_op setup (Select o.0 o.1.0 o.1.1) line world.now.state next ps) next line world.now.state world.now.state ps ps result) }
{
    let (wanted, rest) = value(stack, world, bytes)?;
    let (count, rest) = known_short(rest);
    Ok(target_for(wanted, count, rest))
}
