//! Expressions as exact fractions of what they are made of: numbers are put together before anything is cut off.

ghost use Rattle.std.specs.Prelude.{◌≡◌, ◌≤◌, ◌∷◌, ◌*◌, pos, true, not, Some, None, IfOk, MatchOption, List};
ghost use Rattle.std.specs.List.{list_any};
ghost use Rattle.vcm_num.specs.declared.number.Kind.TheVariants as kinds;
ghost use Rattle.vcm_spec.specs.declared.expression.BinaryOp.{BinaryOp};
ghost use Rattle.vcm_expr.specs.Source.{Plain, parts};
ghost use Rattle.vcm_expr.specs.declared.expression.Term.TheVariants.{Truth, Variable as Named};
ghost use Rattle.vcm_spec.specs.Expression.{product_kind};
ghost use Rattle.vcm_items.specs.Names.{variable_of};
ghost use Rattle.vcm_templates.specs.inner.Done.{where_done};
ghost use Rattle.vcm_templates.specs.Exact.{divisor_in, fraction_by, fraction_of, either_negative, multiplied, divided, one, once, once_of, number_of, literal_amount, whole, thousandths, joined_both, times, shared, signed, thousandths_by, size_of, part_of, value_of, as_kind, is_broken, amount_of, factored, factor_kind, product_by, product_of, product, quotient_of, quotient, otherwise, kind_beside, between, opposite, prefixed, variable_amount, kind_in, pushed, front_last, between_last, behind, all_behind, only, folded, or_unknown, is_quotient, exact_at};

use crate::expressions::has_form;
use crate::stack::Stack;
use std::alloc::Global;
use vcm_events::{join, unknown};
use vcm_expr::{BinaryOp, Expr, Names, Piece, Prefix, Term, Want};
use vcm_items::Name;
use vcm_items::operators::kind_of_binary;
use vcm_num::{Kind, Literal, NoMemory};

/// The most that either part of a fraction may be.
pub const MOST_PART: u64 = 4_294_967_295;

/// How many remainders are taken at most, to find what divides two numbers.
pub const DIVISOR_STEPS: u32 = 100;

/// A fraction.
#[derive(Clone, Copy)]
pub struct Fraction {
    pub negative: bool,
    pub top: u32,
    pub bottom: u32,
}

/// A fraction of an expression of the language, or of 1 where there is none.
#[derive(Drop)]
pub struct Amount {
    pub factor: Fraction,
    pub kind: Kind,
    pub of: Option<Expr>,
}

// What divides both of two numbers, as much as does, by so many remainders at most.
#[tactic(auto, unfolding(crate::specs::Exact::divisor_in))]
fn divisor_in(steps: u32, a: u64, b: u64) -> u64
    ensures { result ≡ divisor_in steps a b }
{
    if steps == 0 {
        return a;
    }
    if b == 0 {
        return a;
    }
    divisor_in(steps - 1, b, a % b)
}

// A fraction without this divisor of both its parts, where they aren't too large.
fn fraction_by(negative: bool, top: u64, bottom: u64, divisor: u64) -> Option<Fraction>
    ensures { result ≡ fraction_by negative top bottom divisor }
{
    if bottom == 0 || divisor == 0 {
        return None;
    }
    let top = top / divisor;
    let bottom = bottom / divisor;
    if top > MOST_PART {
        return None;
    }
    if bottom > MOST_PART {
        return None;
    }
    Some(Fraction {
        negative,
        top: top as u32,
        bottom: bottom as u32,
    })
}

// A fraction of two numbers.
fn fraction_of(negative: bool, top: u64, bottom: u64) -> Option<Fraction>
    ensures { result ≡ fraction_of negative top bottom }
{
    let divisor = divisor_in(DIVISOR_STEPS, top, bottom);
    fraction_by(negative, top, bottom, divisor)
}

// Whether one of two is below zero, and not the other.
fn either_negative(f: Fraction, g: Fraction) -> bool
    ensures { result ≡ either_negative f g }
{
    if f.negative { !g.negative } else { g.negative }
}

// The product of two fractions.
fn multiplied(f: Fraction, g: Fraction) -> Option<Fraction>
    ensures { result ≡ multiplied f g }
{
    let top = u64::from(f.top) * u64::from(g.top);
    let bottom = u64::from(f.bottom) * u64::from(g.bottom);
    fraction_of(either_negative(f, g), top, bottom)
}

// Their quotient.
fn divided(f: Fraction, g: Fraction) -> Option<Fraction>
    ensures { result ≡ divided f g }
{
    let top = u64::from(f.top) * u64::from(g.bottom);
    let bottom = u64::from(f.bottom) * u64::from(g.top);
    fraction_of(either_negative(f, g), top, bottom)
}

// An expression of this kind as it stands.
fn once(kind: Kind, value: Expr) -> Amount
    ensures { result ≡ once kind value }
{
    Amount {
        factor: Fraction {
            negative: false,
            top: 1,
            bottom: 1,
        },
        kind,
        of: Some(value),
    }
}

// The same, if it is there.
fn once_of(kind: Kind, value: Option<Expr>) -> Option<Amount>
    ensures { result ≡ once_of kind value }
{
    match value {
        Some(value) => Some(once(kind, value)),
        None => None,
    }
}

// A number of this kind, if there is one.
fn number_of(kind: Kind, factor: Option<Fraction>) -> Option<Amount>
    ensures { result ≡ number_of kind factor }
{
    match factor {
        Some(factor) => Some(Amount {
            factor,
            kind,
            of: None,
        }),
        None => None,
    }
}

// A number as it is written.
fn literal_amount(literal: Literal) -> Option<Amount>
    ensures { result ≡ literal_amount literal }
{
    match literal {
        Literal::Int(number) => {
            if number < 0 {
                None
            } else {
                number_of(Kind::Int, fraction_of(false, number.unsigned_abs(), 1))
            }
        }
        Literal::Thousandths(number) => {
            if number < 0 {
                None
            } else {
                number_of(Kind::Real, fraction_of(false, number.unsigned_abs(), 1000))
            }
        }
    }
}

// A whole number as an expression.
fn whole(number: u32) -> Expr
    ensures { result ≡ whole number }
{
    Expr::leaf(Term::Number(Literal::Int(i64::from(number))))
}

// A number of thousandths as an expression.
fn thousandths(number: u64) -> Expr
    requires { number ≤ 4294967295000 }
    ensures { result ≡ thousandths number }
{
    Expr::leaf(Term::Number(Literal::Thousandths(number as i64)))
}

// An operator on two expressions, if both are there.
fn joined_both(
    alloc: Global,
    op: BinaryOp,
    a: Option<Expr>,
    b: Option<Expr>,
) -> Result<Option<Expr>, NoMemory>
    ensures { IfOk result (λ e. e ≡ joined_both op a b) }
{
    match a {
        Some(a) => match b {
            Some(b) => join(alloc, op, &a, &b),
            None => Ok(None),
        },
        None => Ok(None),
    }
}

// So many times an expression.
fn times(alloc: Global, number: u32, value: Expr) -> Result<Option<Expr>, NoMemory>
    ensures { IfOk result (λ e. e ≡ times number value) }
{
    if number == 1 {
        return Ok(Some(value));
    }
    join(alloc, BinaryOp::Mul, &value, &whole(number))
}

// The part of an expression that one of so many is.
fn shared(alloc: Global, number: u32, value: Option<Expr>) -> Result<Option<Expr>, NoMemory>
    ensures { IfOk result (λ e. e ≡ shared number value) }
{
    match value {
        Some(value) => {
            if number == 1 {
                return Ok(Some(value));
            }
            join(alloc, BinaryOp::Div, &value, &whole(number))
        }
        None => Ok(None),
    }
}

// An expression, or what is below zero by it.
fn signed(alloc: Global, negative: bool, value: Option<Expr>) -> Result<Option<Expr>, NoMemory>
    ensures { IfOk result (λ e. e ≡ signed negative value) }
{
    match value {
        Some(value) => {
            if negative {
                join(alloc, BinaryOp::Sub, &whole(0), &value)
            } else {
                Ok(Some(value))
            }
        }
        None => Ok(None),
    }
}

// Thousandths of which there are so many in a number by so many.
fn thousandths_by(alloc: Global, number: u64, bottom: u32) -> Result<Option<Expr>, NoMemory>
    requires { number ≤ 4294967295000 }
    ensures { IfOk result (λ e. e ≡ thousandths_by number bottom) }
{
    if bottom == 0 {
        return Ok(None);
    }
    let by = u64::from(bottom);
    if number % by == 0 {
        return Ok(Some(thousandths(number / by)));
    }
    join(alloc, BinaryOp::Div, &thousandths(number), &whole(bottom))
}

// A number without its sign.
fn size_of(alloc: Global, kind: Kind, factor: Fraction) -> Result<Option<Expr>, NoMemory>
    ensures { IfOk result (λ e. e ≡ size_of kind factor) }
{
    match kind {
        Kind::Int => Ok(Some(whole(factor.top))),
        Kind::Real | Kind::Bool => {
            thousandths_by(alloc, 1000 * u64::from(factor.top), factor.bottom)
        }
    }
}

// A fraction, without its sign, of an expression, or of 1.
fn part_of(
    alloc: Global,
    kind: Kind,
    factor: Fraction,
    of: Option<Expr>,
) -> Result<Option<Expr>, NoMemory>
    ensures { IfOk result (λ e. e ≡ part_of kind factor of) }
{
    match of {
        Some(value) => {
            let times = times(alloc, factor.top, value)?;
            shared(alloc, factor.bottom, times)
        }
        None => size_of(alloc, kind, factor),
    }
}

// What an amount is as an expression.
fn value_of(alloc: Global, amount: Amount) -> Result<Option<Expr>, NoMemory>
    ensures { IfOk result (λ e. e ≡ value_of amount) }
{
    let Amount { factor, kind, of } = amount;
    let part = part_of(alloc, kind, factor, of)?;
    signed(alloc, factor.negative, part)
}

// An expression of whole numbers as one of REALs, where one is wanted.
fn as_kind(alloc: Global, kind: Kind, was: Kind, value: Expr) -> Result<Option<Expr>, NoMemory>
    ensures { IfOk result (λ e. e ≡ as_kind kind was value) }
{
    match kind {
        Kind::Real => match was {
            Kind::Int => join(alloc, BinaryOp::Mul, &value, &thousandths(1000)),
            Kind::Real | Kind::Bool => Ok(Some(value)),
        },
        Kind::Int | Kind::Bool => Ok(Some(value)),
    }
}

// Whether a fraction of whole numbers is none.
fn is_broken(kind: Kind, factor: Fraction) -> bool
    ensures { result ≡ is_broken kind factor }
{
    match kind {
        Kind::Int => factor.bottom != 1,
        Kind::Real | Kind::Bool => false,
    }
}

// So many times an expression, as an amount.
fn amount_of(kind: Kind, factor: Fraction, of: Option<Expr>) -> Option<Amount>
    ensures { result ≡ amount_of kind factor of }
{
    match of {
        Some(value) => Some(Amount {
            factor,
            kind,
            of: Some(value),
        }),
        None => None,
    }
}

// A fraction of an expression of a kind, or of 1, as an amount of another kind.
fn factored(
    alloc: Global,
    kind: Kind,
    factor: Option<Fraction>,
    was: Kind,
    of: Option<Expr>,
) -> Result<Option<Amount>, NoMemory>
    ensures { IfOk result (λ a. a ≡ factored kind factor was of) }
{
    let Some(factor) = factor else {
        return Ok(None);
    };
    if is_broken(kind, factor) {
        return Ok(None);
    }
    match of {
        Some(value) => {
            let value = as_kind(alloc, kind, was, value)?;
            Ok(amount_of(kind, factor, value))
        }
        None => Ok(number_of(kind, Some(factor))),
    }
}

// The kind of a product of numbers, or of a quotient.
fn factor_kind(a: Kind, b: Kind) -> Option<Kind>
    ensures { result ≡ factor_kind a b }
{
    match a {
        Kind::Int => match b {
            Kind::Int => Some(Kind::Int),
            Kind::Real => Some(Kind::Real),
            Kind::Bool => None,
        },
        Kind::Real => match b {
            Kind::Int | Kind::Real => Some(Kind::Real),
            Kind::Bool => None,
        },
        Kind::Bool => None,
    }
}

// The product of two expressions that are no numbers.
fn product_by(alloc: Global, a: Amount, b: Amount) -> Result<Option<Amount>, NoMemory>
    ensures { IfOk result (λ c. c ≡ product_by (product_kind a.kind b.kind) a b) }
{
    let Some(kind) = kind_of_binary(BinaryOp::Mul, a.kind, b.kind) else {
        return Ok(None);
    };
    let first = value_of(alloc, a)?;
    let second = value_of(alloc, b)?;
    let value = joined_both(alloc, BinaryOp::Mul, first, second)?;
    Ok(once_of(kind, value))
}

// A product of this kind.
fn product_of(alloc: Global, kind: Kind, a: Amount, b: Amount) -> Result<Option<Amount>, NoMemory>
    ensures { IfOk result (λ c. c ≡ product_of kind a b a.of b.of) }
{
    if b.of.is_none() {
        let factor = multiplied(a.factor, b.factor);
        return factored(alloc, kind, factor, a.kind, a.of);
    }
    if a.of.is_none() {
        let factor = multiplied(a.factor, b.factor);
        return factored(alloc, kind, factor, b.kind, b.of);
    }
    product_by(alloc, a, b)
}

// A quotient of this kind.
fn quotient_of(alloc: Global, kind: Kind, a: Amount, b: Amount) -> Result<Option<Amount>, NoMemory>
    ensures { IfOk result (λ c. c ≡ quotient_of kind a b b.of) }
{
    if b.of.is_none() {
        let factor = divided(a.factor, b.factor);
        return factored(alloc, kind, factor, a.kind, a.of);
    }
    Ok(None)
}

// The kind of another operator on numbers or truth values.
fn kind_beside(op: BinaryOp, a: Kind, b: Kind) -> Option<Kind>
    ensures { result ≡ kind_beside op a b }
{
    match a {
        Kind::Int => match b {
            Kind::Real => kind_of_binary(op, Kind::Real, Kind::Real),
            Kind::Int | Kind::Bool => kind_of_binary(op, a, b),
        },
        Kind::Real => match b {
            Kind::Int => kind_of_binary(op, Kind::Real, Kind::Real),
            Kind::Real | Kind::Bool => kind_of_binary(op, a, b),
        },
        Kind::Bool => kind_of_binary(op, a, b),
    }
}

// Another operator.
fn otherwise(alloc: Global, op: BinaryOp, a: Amount, b: Amount) -> Result<Option<Amount>, NoMemory>
    ensures { IfOk result (λ c. c ≡ otherwise (kind_beside op a.kind b.kind) op a b) }
{
    let Some(kind) = kind_beside(op, a.kind, b.kind) else {
        return Ok(None);
    };
    let first = value_of(alloc, a)?;
    let second = value_of(alloc, b)?;
    let value = joined_both(alloc, op, first, second)?;
    Ok(once_of(kind, value))
}

// An operator on two amounts.
fn between(alloc: Global, op: BinaryOp, a: Amount, b: Amount) -> Result<Option<Amount>, NoMemory>
    ensures { IfOk result (λ c. c ≡ between op a b) }
{
    match op {
        BinaryOp::Mul => match factor_kind(a.kind, b.kind) {
            Some(kind) => product_of(alloc, kind, a, b),
            None => Ok(None),
        },
        BinaryOp::Div => match factor_kind(a.kind, b.kind) {
            Some(kind) => quotient_of(alloc, kind, a, b),
            None => Ok(None),
        },
        op => otherwise(alloc, op, a, b),
    }
}

// An amount on the other side of zero.
fn opposite(a: Amount) -> Option<Amount>
    ensures { result ≡ opposite a.kind a }
{
    match a.kind {
        Kind::Bool => None,
        Kind::Int | Kind::Real => {
            let Amount { factor, kind, of } = a;
            let factor = Fraction {
                negative: !factor.negative,
                top: factor.top,
                bottom: factor.bottom,
            };
            Some(Amount { factor, kind, of })
        }
    }
}

// A sign in front of an amount.
fn prefixed(prefix: Prefix, a: Amount) -> Option<Amount>
    ensures { result ≡ prefixed prefix a }
{
    match prefix {
        Prefix::Minus => opposite(a),
        Prefix::Plus => Some(a),
        Prefix::Not => None,
    }
}

// A variable, if it has a kind.
fn variable_amount(names: &Names, name: &Name, expansion: u32) -> Option<Amount>
    ensures { result ≡ variable_amount name.now expansion (kind_in names.now (variable_of names.now expansion name.now)) }
{
    match names.find(expansion, name) {
        Some((_, kind)) => {
            let value = Expr::leaf(Term::Variable(name.copy(), expansion));
            Some(once(kind, value))
        }
        None => None,
    }
}

// One amount more, if there is one.
fn push(amount: Option<Amount>, stack: &mut Stack<Amount>) -> Result<bool, NoMemory>
    ensures { IfOk result (λ done. pushed amount stack.old ≡ where_done done stack.new) }
{
    match amount {
        Some(amount) => {
            stack.push(amount)?;
            Ok(true)
        }
        None => Ok(false),
    }
}

// A sign in front of the last amount, if there is one.
fn front_last(prefix: Prefix, stack: &mut Stack<Amount>) -> Result<bool, NoMemory>
    ensures { IfOk result (λ done. front_last prefix stack.old ≡ where_done done stack.new) }
{
    match stack.pop() {
        Some(a) => push(prefixed(prefix, a), stack),
        None => Ok(false),
    }
}

// The last two amounts, if there are two.
fn last_two(stack: &mut Stack<Amount>) -> Option<(Amount, Amount)>
    ensures { MatchOption result ((o : BinaryOp) → between_last o stack.old ≡ None) (λ p. stack.old ≡ p.1 ∷ p.0 ∷ stack.new) }
{
    let b = stack.pop()?;
    let a = stack.pop()?;
    Some((a, b))
}

// An operator between the last two amounts, if there are two.
fn between_last(alloc: Global, op: BinaryOp, stack: &mut Stack<Amount>) -> Result<bool, NoMemory>
    ensures { IfOk result (λ done. between_last op stack.old ≡ where_done done stack.new) }
{
    match last_two(stack) {
        Some((a, b)) => {
            let amount = between(alloc, op, a, b)?;
            push(amount, stack)
        }
        None => Ok(false),
    }
}

// The amounts that are there behind a part of an expression, if it has any.
fn step(
    alloc: Global,
    names: &Names,
    piece: &Piece,
    stack: &mut Stack<Amount>,
) -> Result<bool, NoMemory>
    ensures { IfOk result (λ done. behind names.now piece.now stack.old ≡ where_done done stack.new) }
{
    match piece {
        Piece::Number(number) => push(literal_amount(*number), stack),
        Piece::Truth(truth) => {
            stack.push(once(Kind::Bool, Expr::leaf(Term::Truth(*truth))))?;
            Ok(true)
        }
        Piece::Variable(name, expansion) => push(variable_amount(names, name, *expansion), stack),
        Piece::Front(prefix) => front_last(*prefix, stack),
        Piece::Between(op) => between_last(alloc, *op, stack),
    }
}

// The amounts that are there behind all parts, if they have any.
fn steps(
    alloc: Global,
    names: &Names,
    pieces: &[Piece],
    stack: &mut Stack<Amount>,
) -> Result<bool, NoMemory>
    ensures { IfOk result (λ done. all_behind names.now pieces.now stack.old ≡ where_done done stack.new) }
{
    match pieces {
        [] => Ok(true),
        [first, rest @ ..] => {
            if step(alloc, names, first, stack)? {
                steps(alloc, names, rest, stack)
            } else {
                Ok(false)
            }
        }
    }
}

// The only amount, as an expression.
fn only(alloc: Global, mut stack: Stack<Amount>) -> Result<Option<Expr>, NoMemory>
    ensures { IfOk result (λ e. e ≡ only stack) }
{
    let Some(first) = stack.pop() else {
        return Ok(None);
    };
    match stack.pop() {
        Some(second) => {
            drop(second);
            Ok(None)
        }
        None => value_of(alloc, first),
    }
}

// An expression as an exact fraction of what it is made of, where it has one.
#[tactic(auto, unfolding(crate::specs::Exact::folded))]
fn folded(alloc: Global, names: &Names, value: &Expr) -> Result<Option<Expr>, NoMemory>
    ensures { IfOk result (λ e. e ≡ folded names.now value.now) }
{
    let mut stack = Stack::new(alloc);
    if steps(alloc, names, value.pieces(), &mut stack)? {
        only(alloc, stack)
    } else {
        Ok(None)
    }
}

/// Whether a part is a quotient.
pub fn is_quotient(piece: &Piece) -> bool
    ensures { result ≡ is_quotient piece.now }
{
    matches!(piece, Piece::Between(BinaryOp::Div))
}

// Whether one of the parts is.
fn has_quotient(pieces: &[Piece]) -> bool
    ensures { result ≡ list_any is_quotient pieces.now }
{
    pieces.iter().any(|piece| is_quotient(piece))
}

/// An expression as it is put at a place.
///
/// # Errors
///
/// Out of memory.
pub fn exact_at(alloc: Global, names: &Names, want: Want, value: Expr) -> Result<Expr, NoMemory>
    ensures { IfOk result (λ e. e ≡ exact_at names.now want value) }
{
    if has_form(alloc, names, want, &value)? && !has_quotient(value.pieces()) {
        return Ok(value);
    }
    match folded(alloc, names, &value)? {
        Some(value) => Ok(value),
        None => Ok(unknown()),
    }
}
