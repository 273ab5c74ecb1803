//! What operators give: values and kinds.

ghost use Rattle.std.specs.Prelude.{◌≡◌, length};
ghost use Rattle.vcm_spec.specs.Expression.{operand_kind, unary_kind, binary_kind, product_kind, quotient_kind, two_truths, two_alike as alike_kind};
ghost use Rattle.vcm_spec.specs.Value.{truth, operand_value, unary_value, binary_value, holds as relation_holds};
ghost use Rattle.vcm_items.specs.Typed.{VariableBelow};

use vcm_num::{Fault, Kind, add, div, mul, neg, scale, sub};
use vcm_spec::{BinaryOp, Operand, Relation, UnaryOp};

/// A truth value as a number: 1 or 0.
#[inline(always)]
fn truth_number(b: bool) -> i64
    ensures { result ≡ truth b }
{
    if b { 1 } else { 0 }
}

/// The value of an operand, where the variables have these values.
#[inline(always)]
pub fn operand(x: Operand, slots: &[i64]) -> i64
    requires { VariableBelow (length slots.now) x }
    ensures { result ≡ operand_value slots.now x }
{
    match x {
        Operand::Integer(n) => n,
        Operand::Thousandths(n) => n,
        Operand::Truth(b) => truth_number(b),
        Operand::Variable(v) => slots[v as usize],
    }
}

/// An operator on one value.
#[inline(always)]
pub fn unary(op: UnaryOp, x: i64) -> Result<i64, Fault>
    ensures { result ≡ unary_value op x }
{
    match op {
        UnaryOp::Neg => neg(x),
        UnaryOp::Scale => scale(x),
        UnaryOp::Not => Ok(truth_number(x == 0)),
    }
}

/// Whether two numbers are so related.
#[inline(always)]
fn holds(relation: Relation, x: i64, y: i64) -> bool
    ensures { result ≡ relation_holds relation x y }
{
    match relation {
        Relation::Equal => x == y,
        Relation::NotEqual => x != y,
        Relation::Less => x < y,
        Relation::LessEqual => x <= y,
        Relation::Greater => x > y,
        Relation::GreaterEqual => x >= y,
    }
}

/// An operator on two values.
#[inline(always)]
pub(crate) fn binary(op: BinaryOp, x: i64, y: i64) -> Result<i64, Fault>
    ensures { result ≡ binary_value op x y }
{
    match op {
        BinaryOp::Add => add(x, y),
        BinaryOp::Sub => sub(x, y),
        BinaryOp::Mul => mul(x, y),
        BinaryOp::Div => div(x, y),
        BinaryOp::And => Ok(truth_number(x != 0 && y != 0)),
        BinaryOp::Or => Ok(truth_number(x != 0 || y != 0)),
        BinaryOp::Compare(relation) => Ok(truth_number(holds(relation, x, y))),
    }
}

/// The kind that an operator on one value gives.
pub(crate) fn kind_of_unary(op: UnaryOp, k: Kind) -> Option<Kind>
    ensures { result ≡ unary_kind op k }
{
    match (op, k) {
        (UnaryOp::Neg, Kind::Int) => Some(Kind::Int),
        (UnaryOp::Neg, Kind::Real) => Some(Kind::Real),
        (UnaryOp::Scale, Kind::Int) => Some(Kind::Real),
        (UnaryOp::Not, Kind::Bool) => Some(Kind::Bool),
        _ => None,
    }
}

/// The kind that an operator on two values gives.
pub fn kind_of_binary(op: BinaryOp, k: Kind, l: Kind) -> Option<Kind>
    ensures { result ≡ binary_kind op k l }
{
    match op {
        BinaryOp::Add | BinaryOp::Sub => two_alike(Kind::Int, Kind::Real, k, l),
        BinaryOp::Mul => kind_of_product(k, l),
        BinaryOp::Div => kind_of_quotient(k, l),
        BinaryOp::And | BinaryOp::Or => kind_of_truths(k, l),
        BinaryOp::Compare(_) => two_alike(Kind::Bool, Kind::Bool, k, l),
    }
}

/// What two whole numbers give, and what two numbers of thousandths give.
fn two_alike(whole: Kind, exact: Kind, k: Kind, l: Kind) -> Option<Kind>
    ensures { result ≡ alike_kind whole exact k l }
{
    match (k, l) {
        (Kind::Int, Kind::Int) => Some(whole),
        (Kind::Real, Kind::Real) => Some(exact),
        _ => None,
    }
}

/// The kind of a product.
fn kind_of_product(k: Kind, l: Kind) -> Option<Kind>
    ensures { result ≡ product_kind k l }
{
    match (k, l) {
        (Kind::Int, Kind::Int) => Some(Kind::Int),
        (Kind::Int, Kind::Real) | (Kind::Real, Kind::Int) => Some(Kind::Real),
        _ => None,
    }
}

/// The kind of a quotient.
fn kind_of_quotient(k: Kind, l: Kind) -> Option<Kind>
    ensures { result ≡ quotient_kind k l }
{
    match (k, l) {
        (Kind::Int, Kind::Int) => Some(Kind::Int),
        (Kind::Real, Kind::Int) => Some(Kind::Real),
        _ => None,
    }
}

/// The kind that two truth values give.
fn kind_of_truths(k: Kind, l: Kind) -> Option<Kind>
    ensures { result ≡ two_truths k l }
{
    match (k, l) {
        (Kind::Bool, Kind::Bool) => Some(Kind::Bool),
        _ => None,
    }
}

/// The kind of an operand, where the variables have these kinds.
pub(crate) fn kind_of_operand(x: Operand, kinds: &[Kind]) -> Option<Kind>
    ensures { result ≡ operand_kind kinds.now x }
{
    match x {
        Operand::Integer(_) => Some(Kind::Int),
        Operand::Thousandths(_) => Some(Kind::Real),
        Operand::Truth(_) => Some(Kind::Bool),
        Operand::Variable(v) => kinds.get(v as usize).copied(),
    }
}
