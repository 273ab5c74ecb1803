//! How far values may lie from the machine's: what is cut off, and what comes of that.

ghost use Rattle.std.specs.Prelude.{◌≡◌, ◌∷◌, pos, Some, None, IfOk, MatchOption, List, ◌<ℤ◌};
ghost use Rattle.vcm_expr.specs.Source.{Plain, parts, leaf_in};
ghost use Rattle.vcm_expr.specs.declared.expression.Term.TheVariants.{Number, Variable as Named};
ghost use Rattle.vcm_items.specs.Names.{variable_of};
ghost use Rattle.vcm_templates.specs.Exact.{kind_in};
ghost use Rattle.vcm_templates.specs.inner.Done.{where_done};
ghost use Rattle.vcm_spec.specs.declared.expression.BinaryOp.{BinaryOp};
ghost use Rattle.vcm_templates.specs.Besides.{formula_of, on_both, on_any, carries_bounds, bound_of, is_whole, size, size_in, product_bound, divisor_in, divisor_of, number, thousandths, thousandths, just_below, rest, part_above, part_below, cut, bound_shared, quotient_bound, exactly, truth_where, within, zero_value, signed_value, asked_of, apart, decided, bound_by, calculated, combined, front_last, between_last, variable_value, behind, all_behind, only, beside_of, at_most, bound_value};

use crate::carried::{IMPLICIT, Item};
use crate::stack::Stack;
use std::alloc::Global;
use vcm_events::join;
use vcm_expr::{BinaryOp, Expr, Names, Piece, Prefix, Relation, Term};
use vcm_items::Name;
use vcm_num::{Kind, Literal, NoMemory};

/// An expression that is asked for, or that a bound is.
#[derive(Drop)]
pub enum Formula {
    /// None.
    Nothing,
    /// This one.
    This(Expr),
    /// One that got too large.
    TooLarge,
}

/// A value, how far it may lie from the machine's, and what is asked of it.
#[derive(Drop)]
pub struct Beside {
    /// The value; none of a truth value.
    pub value: Formula,
    /// How far it may lie from the machine's; nothing where it is the machine's.
    pub bound: Formula,
    /// What is asked, so that its relations are the machine's.
    pub asked: Formula,
}

// The same formula.
fn copy(alloc: Global, of: &Formula) -> Result<Formula, NoMemory>
    ensures { IfOk result (λ f. f ≡ of.now) }
{
    match of {
        Formula::Nothing => Ok(Formula::Nothing),
        Formula::This(value) => match value.copy(alloc) {
            Ok(value) => Ok(Formula::This(value)),
            Err(_) => Err(NoMemory),
        },
        Formula::TooLarge => Ok(Formula::TooLarge),
    }
}

// An expression as a formula, where it isn't too large.
fn formula_of(value: Option<Expr>) -> Formula
    ensures { result ≡ formula_of value }
{
    match value {
        Some(value) => Formula::This(value),
        None => Formula::TooLarge,
    }
}

// An operator on two formulas that are there.
fn on_both(alloc: Global, op: BinaryOp, a: &Formula, b: &Formula) -> Result<Formula, NoMemory>
    ensures { IfOk result (λ f. f ≡ on_both op a.now b.now) }
{
    match a {
        Formula::This(a) => match b {
            Formula::This(b) => Ok(formula_of(join(alloc, op, a, b)?)),
            Formula::Nothing | Formula::TooLarge => Ok(Formula::TooLarge),
        },
        Formula::Nothing | Formula::TooLarge => Ok(Formula::TooLarge),
    }
}

// An operator on two formulas, of which either may be missing.
fn on_any(alloc: Global, op: BinaryOp, a: &Formula, b: &Formula) -> Result<Formula, NoMemory>
    ensures { IfOk result (λ f. f ≡ on_any op a.now b.now) }
{
    match a {
        Formula::Nothing => copy(alloc, b),
        Formula::This(_) | Formula::TooLarge => match b {
            Formula::Nothing => copy(alloc, a),
            Formula::This(_) | Formula::TooLarge => on_both(alloc, op, a, b),
        },
    }
}

/// Whether a text carries how far its values may lie from the machine's.
pub fn carries_bounds(names: &Names) -> bool
    ensures { result ≡ carries_bounds names.now }
{
    match names.get(0) {
        Some((expansion, _, _)) => expansion == IMPLICIT,
        None => false,
    }
}

// How far a variable may lie from the machine's, by its index and its kind.
fn bound_of(index: u16, kind: Kind) -> Formula
    ensures { result ≡ bound_of (Some index) (Some kind) }
{
    match kind {
        Kind::Real => Formula::This(Expr::leaf(Item::Beside.term(index))),
        Kind::Int | Kind::Bool => Formula::Nothing,
    }
}

// What stands for the size of a factor.
fn size(alloc: Global, value: &Expr) -> Result<Formula, NoMemory>
    ensures { IfOk result (λ f. f ≡ size value.now) }
{
    match value.as_leaf() {
        Some(Term::Number(Literal::Int(number))) => {
            Ok(Formula::This(Expr::leaf(Term::Number(Literal::Int(number)))))
        }
        _ => Ok(formula_of(join(alloc, BinaryOp::Mul, value, value)?)),
    }
}

// The size of a factor that is there.
fn size_in(alloc: Global, value: &Formula) -> Result<Formula, NoMemory>
    ensures { IfOk result (λ f. f ≡ size_in value.now) }
{
    match value {
        Formula::This(value) => size(alloc, value),
        Formula::Nothing | Formula::TooLarge => Ok(Formula::TooLarge),
    }
}

// The bound of a product with a factor that is the machine's.
fn times_size(alloc: Global, bound: &Formula, value: &Formula) -> Result<Formula, NoMemory>
    ensures { IfOk result (λ f. f ≡ on_both BinaryOp.Mul bound.now (size_in value.now)) }
{
    let size = size_in(alloc, value)?;
    on_both(alloc, BinaryOp::Mul, bound, &size)
}

// The bound of a product, by the bounds and the values of its factors.
fn product_bound(alloc: Global, a: &Beside, b: &Beside) -> Result<Formula, NoMemory>
    ensures { IfOk result (λ f. f ≡ product_bound a.now.bound a.now.value b.now.bound b.now.value) }
{
    match &a.bound {
        Formula::Nothing => match &b.bound {
            Formula::Nothing => Ok(Formula::Nothing),
            Formula::This(_) | Formula::TooLarge => times_size(alloc, &b.bound, &a.value),
        },
        Formula::This(_) | Formula::TooLarge => match &b.bound {
            Formula::Nothing => times_size(alloc, &a.bound, &b.value),
            Formula::This(_) | Formula::TooLarge => Ok(Formula::TooLarge),
        },
    }
}

// The number that a formula is, where it is one to divide by.
fn divisor_of(value: &Formula) -> Option<i64>
    ensures { result ≡ divisor_of value.now }
{
    match value {
        Formula::This(value) => match value.as_leaf() {
            Some(Term::Number(Literal::Int(number))) => {
                if 0 < number { Some(number) } else { None }
            }
            _ => None,
        },
        Formula::Nothing | Formula::TooLarge => None,
    }
}

// A whole number as a formula.
fn number(value: i64) -> Formula
    ensures { result ≡ number value }
{
    Formula::This(Expr::leaf(Term::Number(Literal::Int(value))))
}

// So many thousandths as a formula.
fn thousandths(value: i64) -> Formula
    ensures { result ≡ thousandths value }
{
    Formula::This(Expr::leaf(Term::Number(Literal::Thousandths(value))))
}

// One thousandth less than so many.
fn just_below(by: i64) -> Formula
    requires { pos 0 <ℤ by }
    ensures { result ≡ just_below by }
{
    thousandths(by - 1)
}

// What a value leaves when it is divided by a number.
fn rest(alloc: Global, value: &Formula, by: i64) -> Result<Formula, NoMemory>
    ensures { IfOk result (λ f. f ≡ rest value.now by) }
{
    let part = on_both(alloc, BinaryOp::Div, value, &number(by))?;
    let whole = on_both(alloc, BinaryOp::Mul, &part, &number(by))?;
    on_both(alloc, BinaryOp::Sub, value, &whole)
}

// The part of a value that one of so many is, to the next thousandth above.
fn part_above(alloc: Global, value: &Formula, by: i64) -> Result<Formula, NoMemory>
    requires { pos 0 <ℤ by }
    ensures { IfOk result (λ f. f ≡ part_above value.now by) }
{
    let more = on_both(alloc, BinaryOp::Add, value, &just_below(by))?;
    on_both(alloc, BinaryOp::Div, &more, &number(by))
}

// The same of a value below zero.
fn part_below(alloc: Global, value: &Formula, by: i64) -> Result<Formula, NoMemory>
    requires { pos 0 <ℤ by }
    ensures { IfOk result (λ f. f ≡ part_below value.now by) }
{
    let less = on_both(alloc, BinaryOp::Sub, &just_below(by), value)?;
    on_both(alloc, BinaryOp::Div, &less, &number(by))
}

// A thousandth where a quotient is cut off, else 0.
fn cut(alloc: Global, value: &Formula, by: i64) -> Result<Formula, NoMemory>
    requires { pos 0 <ℤ by }
    ensures { IfOk result (λ f. f ≡ cut value.now by) }
{
    let rest = rest(alloc, value, by)?;
    let above = part_above(alloc, &rest, by)?;
    let below = part_below(alloc, &rest, by)?;
    on_both(alloc, BinaryOp::Add, &above, &below)
}

// The bound of a part, by the bound of the whole.
fn bound_shared(alloc: Global, bound: &Formula, by: i64) -> Result<Formula, NoMemory>
    requires { pos 0 <ℤ by }
    ensures { IfOk result (λ f. f ≡ bound_shared bound.now by) }
{
    match bound {
        Formula::Nothing => Ok(Formula::Nothing),
        Formula::This(_) | Formula::TooLarge => part_above(alloc, bound, by),
    }
}

// The bound of a quotient.
fn quotient_bound(alloc: Global, a: &Beside, by: &Formula) -> Result<Formula, NoMemory>
    ensures { IfOk result (λ f. f ≡ quotient_bound a.now.bound a.now.value (divisor_of by.now)) }
{
    match divisor_of(by) {
        Some(by) => {
            let shared = bound_shared(alloc, &a.bound, by)?;
            let cut = cut(alloc, &a.value, by)?;
            on_any(alloc, BinaryOp::Add, &shared, &cut)
        }
        None => Ok(Formula::TooLarge),
    }
}

// A value that is the machine's.
fn exactly(value: Expr) -> Beside
    ensures { result ≡ exactly value }
{
    within(value, Formula::Nothing)
}

// A truth value, where this is asked.
fn truth_where(asked: Formula) -> Beside
    ensures { result ≡ truth_where asked }
{
    Beside {
        value: Formula::Nothing,
        bound: Formula::Nothing,
        asked,
    }
}

// A value with this bound.
fn within(value: Expr, bound: Formula) -> Beside
    ensures { result ≡ within value bound }
{
    Beside {
        value: Formula::This(value),
        bound,
        asked: Formula::Nothing,
    }
}

// A sign in front of a value.
fn signed_value(alloc: Global, prefix: Prefix, a: Beside) -> Result<Beside, NoMemory>
    ensures { IfOk result (λ b. b ≡ signed_value prefix a) }
{
    match prefix {
        Prefix::Minus => {
            let value = on_both(alloc, BinaryOp::Sub, &number(0), &a.value)?;
            Ok(Beside { value, ..a })
        }
        Prefix::Plus | Prefix::Not => Ok(a),
    }
}

// What is asked of two values that lie this far apart, either way, with this bound.
fn apart(alloc: Global, d: &Formula, e: &Formula, bound: &Formula) -> Result<Formula, NoMemory>
    ensures { IfOk result (λ f. f ≡ apart d.now e.now bound.now) }
{
    let above = on_both(alloc, BinaryOp::Compare(Relation::Greater), d, bound)?;
    let below = on_both(alloc, BinaryOp::Compare(Relation::Greater), e, bound)?;
    let exact = on_both(
        alloc,
        BinaryOp::Compare(Relation::LessEqual),
        bound,
        &thousandths(0),
    )?;
    let either = on_both(alloc, BinaryOp::Or, &below, &exact)?;
    on_both(alloc, BinaryOp::Or, &above, &either)
}

// What is asked of a relation, by the bound of its two values together.
fn decided(alloc: Global, a: &Formula, b: &Formula, bound: &Formula) -> Result<Formula, NoMemory>
    ensures { IfOk result (λ f. f ≡ decided a.now b.now bound.now) }
{
    match bound {
        Formula::Nothing => Ok(Formula::Nothing),
        Formula::This(_) | Formula::TooLarge => {
            let d = on_both(alloc, BinaryOp::Sub, a, b)?;
            let e = on_both(alloc, BinaryOp::Sub, b, a)?;
            apart(alloc, &d, &e, bound)
        }
    }
}

// A relation of two values, where this is asked of both.
fn related(alloc: Global, a: &Beside, b: &Beside, asked: &Formula) -> Result<Beside, NoMemory>
    ensures { IfOk result (λ c. c ≡ truth_where (on_any BinaryOp.And asked.now (decided a.now.value b.now.value (on_any BinaryOp.Add a.now.bound b.now.bound)))) }
{
    let bound = on_any(alloc, BinaryOp::Add, &a.bound, &b.bound)?;
    let decided = decided(alloc, &a.value, &b.value, &bound)?;
    Ok(truth_where(on_any(alloc, BinaryOp::And, asked, &decided)?))
}

// The bound of an operator on two numbers.
fn bound_by(alloc: Global, op: BinaryOp, a: &Beside, b: &Beside) -> Result<Formula, NoMemory>
    ensures { IfOk result (λ f. f ≡ bound_by op a.now b.now) }
{
    match op {
        BinaryOp::Mul => product_bound(alloc, a, b),
        BinaryOp::Div => quotient_bound(alloc, a, &b.value),
        _ => on_any(alloc, BinaryOp::Add, &a.bound, &b.bound),
    }
}

// An operator on two values.
fn combined(alloc: Global, op: BinaryOp, a: &Beside, b: &Beside) -> Result<Beside, NoMemory>
    ensures { IfOk result (λ c. c ≡ combined op a.now b.now) }
{
    let asked = on_any(alloc, BinaryOp::And, &a.asked, &b.asked)?;
    match op {
        BinaryOp::And | BinaryOp::Or => Ok(truth_where(asked)),
        BinaryOp::Compare(_) => related(alloc, a, b, &asked),
        _ => {
            let bound = bound_by(alloc, op, a, b)?;
            let value = on_both(alloc, op, &a.value, &b.value)?;
            Ok(Beside {
                value,
                bound,
                asked,
            })
        }
    }
}

// A variable of the text.
fn variable(names: &Names, name: &Name, expansion: u32) -> Beside
    ensures { result ≡ variable_value names.now name.now expansion }
{
    let value = Expr::leaf(Term::Variable(name.copy(), expansion));
    match names.find(expansion, name) {
        Some((index, kind)) => within(value, bound_of(index, kind)),
        None => exactly(value),
    }
}

// A sign in front of the last value, if there is one.
fn front_last(alloc: Global, prefix: Prefix, stack: &mut Stack<Beside>) -> Result<bool, NoMemory>
    ensures { IfOk result (λ done. front_last prefix stack.old ≡ where_done done stack.new) }
{
    match stack.pop() {
        Some(a) => {
            let signed = signed_value(alloc, prefix, a)?;
            stack.push(signed)?;
            Ok(true)
        }
        None => Ok(false),
    }
}

// The last two values, if there are two.
fn last_two(stack: &mut Stack<Beside>) -> Option<(Beside, Beside)>
    ensures { MatchOption result ((o : BinaryOp) → between_last o stack.old ≡ None) (λ p. stack.old ≡ p.1 ∷ p.0 ∷ stack.new) }
{
    let b = stack.pop()?;
    let a = stack.pop()?;
    Some((a, b))
}

// An operator between the last two values, if there are two.
fn between_last(alloc: Global, op: BinaryOp, stack: &mut Stack<Beside>) -> Result<bool, NoMemory>
    ensures { IfOk result (λ done. between_last op stack.old ≡ where_done done stack.new) }
{
    match last_two(stack) {
        Some((a, b)) => {
            let value = combined(alloc, op, &a, &b)?;
            stack.push(value)?;
            Ok(true)
        }
        None => Ok(false),
    }
}

// The values that are there behind a part of an expression, if it has any.
fn step(
    alloc: Global,
    names: &Names,
    piece: &Piece,
    stack: &mut Stack<Beside>,
) -> Result<bool, NoMemory>
    ensures { IfOk result (λ done. behind names.now piece.now stack.old ≡ where_done done stack.new) }
{
    match piece {
        Piece::Number(number) => {
            stack.push(exactly(Expr::leaf(Term::Number(*number))))?;
            Ok(true)
        }
        Piece::Truth(_) => {
            stack.push(truth_where(Formula::Nothing))?;
            Ok(true)
        }
        Piece::Variable(name, expansion) => {
            stack.push(variable(names, name, *expansion))?;
            Ok(true)
        }
        Piece::Front(prefix) => front_last(alloc, *prefix, stack),
        Piece::Between(op) => between_last(alloc, *op, stack),
    }
}

// The values that are there behind all parts, if they have any.
fn steps(
    alloc: Global,
    names: &Names,
    pieces: &[Piece],
    stack: &mut Stack<Beside>,
) -> Result<bool, NoMemory>
    ensures { IfOk result (λ done. all_behind names.now pieces.now stack.old ≡ where_done done stack.new) }
{
    match pieces {
        [] => Ok(true),
        [first, rest @ ..] => {
            if step(alloc, names, first, stack)? {
                steps(alloc, names, rest, stack)
            } else {
                Ok(false)
            }
        }
    }
}

// The only value.
fn only(mut stack: Stack<Beside>) -> Option<Beside>
    ensures { result ≡ only stack }
{
    let first = stack.pop()?;
    match stack.pop() {
        Some(second) => {
            drop(second);
            None
        }
        None => Some(first),
    }
}

/// The value of an expression, with its bound and what is asked; none where it has none.
///
/// # Errors
///
/// Out of memory.
#[tactic(auto, unfolding(crate::specs::Besides::beside_of))]
pub fn beside_of(alloc: Global, names: &Names, value: &Expr) -> Result<Option<Beside>, NoMemory>
    ensures { IfOk result (λ b. b ≡ beside_of names.now value.now) }
{
    let mut stack = Stack::new(alloc);
    if steps(alloc, names, value.pieces(), &mut stack)? {
        Ok(only(stack))
    } else {
        Ok(None)
    }
}

/// What is asked of a bound: it is this many thousandths at most.
pub(crate) fn at_most(alloc: Global, number: i64, bound: &Formula) -> Result<Formula, NoMemory>
    ensures { IfOk result (λ f. f ≡ at_most number bound.now) }
{
    match bound {
        Formula::Nothing => Ok(Formula::Nothing),
        Formula::This(_) | Formula::TooLarge => on_both(
            alloc,
            BinaryOp::Compare(Relation::LessEqual),
            bound,
            &thousandths(number),
        ),
    }
}

/// A bound as an expression; one that is too large is asked for before.
pub(crate) fn bound_value(bound: Formula) -> Expr
    ensures { result ≡ bound_value bound }
{
    match bound {
        Formula::This(value) => value,
        Formula::Nothing | Formula::TooLarge => Expr::leaf(Term::Number(Literal::Thousandths(0))),
    }
}
