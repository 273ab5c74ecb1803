//! Expressions that are made, and not read.

ghost use Rattle.std.specs.Prelude.{◌≡◌, IfOk};
ghost use Rattle.vcm_events.specs.Joined.{joined, pair, whole_of, length_of};

use std::alloc::Global;
use vcm_expr::{BinaryOp, Draft, Expr, Term};
use vcm_lines::FaultCode;
use vcm_num::{Literal, NoMemory};

/// An operator on two expressions; none where that gets too large.
///
/// # Errors
///
/// Out of memory.
pub fn joined(alloc: Global, op: BinaryOp, a: &Expr, b: &Expr) -> Result<Option<Expr>, NoMemory>
    ensures { IfOk result (λ e. e ≡ joined op a.now b.now) }
{
    let Ok(mut draft) = Draft::new(alloc, 8) else {
        return Err(NoMemory);
    };
    let Ok(first) = draft.append(a) else {
        return Err(NoMemory);
    };
    let Ok(second) = draft.append(b) else {
        return Err(NoMemory);
    };
    match draft.joined(1, op, first, second) {
        Ok(size) => Ok(Some(draft.finish(size))),
        Err(fault) => match fault.code {
            FaultCode::NoMemory => Err(NoMemory),
            _ => Ok(None),
        },
    }
}

/// An operator on two leaves.
///
/// # Errors
///
/// Out of memory.
pub fn pair(alloc: Global, op: BinaryOp, a: Term, b: Term) -> Result<Expr, NoMemory>
    ensures { IfOk result (λ e. e ≡ pair op a b) }
{
    match joined(alloc, op, &Expr::leaf(a), &Expr::leaf(b))? {
        Some(value) => Ok(value),
        None => Err(NoMemory),
    }
}

/// A whole number.
///
/// # Errors
///
/// Out of memory.
pub fn whole(alloc: Global, number: i32) -> Result<Expr, NoMemory>
    ensures { IfOk result (λ e. e ≡ whole_of number) }
{
    let number = i64::from(number);
    if number < 0 {
        let zero = Term::Number(Literal::Int(0));
        pair(
            alloc,
            BinaryOp::Sub,
            zero,
            Term::Number(Literal::Int(-number)),
        )
    } else {
        Ok(Expr::leaf(Term::Number(Literal::Int(number))))
    }
}

/// A length, in micrometres.
///
/// # Errors
///
/// Out of memory.
pub fn length(alloc: Global, number: i32) -> Result<Expr, NoMemory>
    ensures { IfOk result (λ e. e ≡ length_of number) }
{
    let number = i64::from(number);
    if number < 0 {
        let zero = Term::Number(Literal::Thousandths(0));
        pair(
            alloc,
            BinaryOp::Sub,
            zero,
            Term::Number(Literal::Thousandths(-number)),
        )
    } else {
        Ok(Expr::leaf(Term::Number(Literal::Thousandths(number))))
    }
}
