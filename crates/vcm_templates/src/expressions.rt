//! Expressions over what is carried.

ghost use Rattle.std.specs.Prelude.{◌≡◌, true, false, IfOk};
ghost use Rattle.vcm_expr.specs.Source.{Pair, Plain};
ghost use Rattle.vcm_spec.specs.declared.expression.BinaryOp.TheVariants.{Compare};
ghost use Rattle.vcm_spec.specs.declared.expression.Relation.TheVariants.{Equal};
ghost use Rattle.vcm_templates.specs.Expressions.{number, truth, both, either, is_current, are_current, knows_frame, is_known, in_frame, is_kept_here, has_form};

use crate::carried::{Carried, Item};
use crate::lengths::Kept;
use std::alloc::Global;
use vcm_events::{join, pair};
use vcm_expr::{BinaryOp, Expr, Names, Relation, Term, Want, type_expr};
use vcm_lines::FaultCode;
use vcm_num::{Literal, NoMemory};

/// A whole number.
pub fn number(value: i64) -> Term
    ensures { result ≡ number value }
{
    Term::Number(Literal::Int(value))
}

/// A truth value.
pub fn truth(value: bool) -> Expr
    ensures { result ≡ truth value }
{
    Expr::leaf(Term::Truth(value))
}

/// Both of two truth values; what gets too large is false.
pub fn both(alloc: Global, a: &Expr, b: &Expr) -> Result<Expr, NoMemory>
    ensures { IfOk result (λ e. e ≡ both a.now b.now) }
{
    match join(alloc, BinaryOp::And, a, b)? {
        Some(value) => Ok(value),
        None => Ok(truth(false)),
    }
}

/// One of two truth values; what gets too large is false.
pub fn either(alloc: Global, a: &Expr, b: &Expr) -> Result<Expr, NoMemory>
    ensures { IfOk result (λ e. e ≡ either a.now b.now) }
{
    match join(alloc, BinaryOp::Or, a, b)? {
        Some(value) => Ok(value),
        None => Ok(truth(false)),
    }
}

/// What is carried is known.
pub fn is_current(alloc: Global, carried: Carried) -> Result<Expr, NoMemory>
    ensures { IfOk result (λ e. e ≡ is_current carried) }
{
    let op = BinaryOp::Compare(Relation::Equal);
    pair(alloc, op, carried.term(), Carried::Epoch.term())
}

/// All of these are known.
pub fn are_current(alloc: Global, all: &[Carried]) -> Result<Expr, NoMemory>
    ensures { IfOk result (λ e. e ≡ are_current all.now) }
{
    match all {
        [] => Ok(truth(true)),
        [first, rest @ ..] => {
            let others = are_current(alloc, rest)?;
            both(alloc, &is_current(alloc, *first)?, &others)
        }
    }
}

/// The current frame is known.
pub fn knows_frame(alloc: Global) -> Result<Expr, NoMemory>
    ensures { IfOk result (λ e. e ≡ knows_frame) }
{
    let op = BinaryOp::Compare(Relation::NotEqual);
    pair(alloc, op, Carried::Frame.term(), number(0))
}

/// A variable at an index is known.
pub fn is_known(alloc: Global, index: u16) -> Result<Expr, NoMemory>
    ensures { IfOk result (λ e. e ≡ is_known index) }
{
    let op = BinaryOp::Compare(Relation::Equal);
    pair(alloc, op, Item::Known.term(index), Carried::Values.term())
}

/// What is carried of a feature in the current frame.
pub fn in_frame(alloc: Global) -> Result<Expr, NoMemory>
    ensures { IfOk result (λ e. e ≡ in_frame) }
{
    let op = BinaryOp::Add;
    pair(alloc, op, Carried::Frame.term(), Carried::Features.term())
}

/// What is carried of a feature is that of the current frame.
pub fn same_as(alloc: Global, of: Term) -> Result<Expr, NoMemory>
    ensures { IfOk result (λ e. e ≡ Pair (Compare Equal) (Plain of) in_frame) }
{
    let op = BinaryOp::Compare(Relation::Equal);
    match join(alloc, op, &Expr::leaf(of), &in_frame(alloc)?)? {
        Some(value) => Ok(value),
        None => Err(NoMemory),
    }
}

/// A place that is kept is one of the current frame.
pub fn is_kept_here(alloc: Global, kept: Kept) -> Result<Expr, NoMemory>
    ensures { IfOk result (λ e. e ≡ is_kept_here kept) }
{
    let op = BinaryOp::Compare(Relation::Equal);
    pair(alloc, op, kept.frame().term(), Carried::Frame.term())
}

/// Whether an expression has a value at this place.
pub fn has_form(alloc: Global, names: &Names, want: Want, value: &Expr) -> Result<bool, NoMemory>
    ensures { IfOk result (λ b. b ≡ has_form names.now want value.now) }
{
    match type_expr(alloc, value, 1, names, want) {
        Ok(typed) => {
            drop(typed);
            Ok(true)
        }
        Err(fault) => match fault.code {
            FaultCode::NoMemory => Err(NoMemory),
            _ => Ok(false),
        },
    }
}
