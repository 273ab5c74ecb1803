//! The value of a typed expression.

ghost use Rattle.std.specs.Prelude.{◌≡◌, length, Some, List, IfOk};
ghost use Rattle.vcm_num.specs.declared.number.Kind.{Kind};
ghost use Rattle.vcm_spec.specs.Expression.{Tree, kind_of, spelling};
ghost use Rattle.vcm_spec.specs.Value.{value_of};
ghost use Rattle.vcm_items.specs.Typed.{VariablesBelow};
ghost use Rattle.vcm_items.specs.Slots.{IsTruth, SlotsFit};
ghost use Rattle.vcm_items.specs.Run.{ItemsFit};

use crate::packed::PackedItem;
use crate::typed::{Kept, Typed};
use vcm_items::{BoundedStack, operators, step_value};
use vcm_num::Fault;
use vcm_spec::UnaryOp;

// The value of the expression that the items spell.
fn carried_out(items: &[PackedItem], slots: &[i64]) -> Result<i64, Fault>
    requires { ItemsFit (length slots.now) items.now 0 }
    ensures { (t : Tree) → items.now ≡ spelling t → result ≡ value_of slots.now t }
{
    let mut stack = BoundedStack::new();
    for kept in items {
        let item = kept.item();
        step_value(&mut stack, item, slots)?;
    }
    Ok(stack.take())
}

/// The value of a typed expression, where the variables have the values of `slots`: a number of thousandths for a `Real`, 0 or 1 for a
/// `Bool`. Takes no memory.
///
/// # Errors
///
/// The first fault, all operands being evaluated, the left one first: an exact result outside 64 bits, or a zero divisor.
pub fn eval(e: &Typed, slots: &[i64]) -> Result<i64, Fault>
    requires { VariablesBelow (length slots.now) e.now }
    ensures value { result ≡ value_of slots.now e.now }
    ensures truth { IfOk result (λ v. (kinds : List Kind) → SlotsFit kinds slots.now
        → kind_of kinds e.now ≡ Some Kind.Bool → IsTruth v) }
{
    match e.kept() {
        Kept::Leaf(x) => Ok(operators::operand(*x, slots)),
        Kept::Scaled(x) => operators::unary(UnaryOp::Scale, operators::operand(*x, slots)),
        Kept::Postfix(items) => carried_out(items, slots),
    }
}
