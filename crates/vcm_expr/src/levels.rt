//! The levels of expressions: which words stand between operands and before them.

ghost use Rattle.std.specs.Prelude.{◌≡◌, ◌∷◌, List, true, false, IfSome, IfNone};
ghost use Rattle.vcm_expr.specs.Parser.{relation_op};
ghost use Rattle.vcm_expr.specs.inner.Levels.{chain_op, front_of as finds_front, NextOf, NoNext, NotClosing};
ghost use Rattle.vcm_expr.specs.declared.symbol.Symbol.{Symbol};

use crate::expression::Prefix;
use crate::symbol::{Symbol, Symbols};
use vcm_spec::BinaryOp;

/// A level whose operators stand between any number of operands.
#[derive(Clone, Copy)]
pub(crate) enum Chain {
    /// `.OR.`
    Disjunction,
    /// `.AND.`
    Conjunction,
    /// `+` and `-`
    Sum,
    /// `*` and `/`
    Product,
}

/// A level whose words stand before an operand.
#[derive(Clone, Copy)]
pub(crate) enum Front {
    /// `.NOT.`
    Negation,
    /// `+` and `-`
    Sign,
}

/// Whether a closing parenthesis stands first. It is passed then.
#[inline(always)]
pub(crate) fn take_closing(words: &mut Symbols<'_>) -> bool
    ensures some { result ≡ true → words.old ≡ Symbol.Closing ∷ words.new }
    ensures none { result ≡ false → NotClosing words.old }
{
    let closes = is_closing(words);
    if closes {
        words.pass();
    }
    closes
}

/// Whether a closing parenthesis stands first.
#[inline(always)]
fn is_closing(words: &Symbols<'_>) -> bool
    ensures some { result ≡ true → (r : List Symbol) × (words.now ≡ Symbol.Closing ∷ r) }
    ensures none { result ≡ false → NotClosing words.now }
{
    match words.mark() {
        Some(Symbol::Closing) => true,
        _ => false,
    }
}

/// The operator of a level that stands first, if one does. It is passed then.
#[inline(always)]
pub(crate) fn take_operator(words: &mut Symbols<'_>, level: Chain) -> Option<BinaryOp>
    ensures some { IfSome result (λ op. NextOf (chain_op level) words.old op words.new) }
    ensures none { IfNone result (NoNext (chain_op level) words.old × (words.new ≡ words.old)) }
{
    let first = words.mark()?;
    let op = operator(&first, level)?;
    words.pass();
    Some(op)
}

/// The operator that a word is at a level.
#[inline(always)]
fn operator(symbol: &Symbol, level: Chain) -> Option<BinaryOp>
    ensures { result ≡ chain_op level symbol.now }
{
    match (level, symbol) {
        (Chain::Disjunction, Symbol::OrWord) => Some(BinaryOp::Or),
        (Chain::Conjunction, Symbol::AndWord) => Some(BinaryOp::And),
        (Chain::Sum, Symbol::Cross) => Some(BinaryOp::Add),
        (Chain::Sum, Symbol::Dash) => Some(BinaryOp::Sub),
        (Chain::Product, Symbol::Star) => Some(BinaryOp::Mul),
        (Chain::Product, Symbol::Slash) => Some(BinaryOp::Div),
        _ => None,
    }
}

/// The relation that stands first, if one does. It is passed then.
#[inline(always)]
pub(crate) fn take_relation(words: &mut Symbols<'_>) -> Option<BinaryOp>
    ensures some { IfSome result (λ op. NextOf relation_op words.old op words.new) }
    ensures none { IfNone result (NoNext relation_op words.old × (words.new ≡ words.old)) }
{
    match words.mark()? {
        Symbol::RelationWord(relation) => {
            words.pass();
            Some(BinaryOp::Compare(relation))
        }
        _ => None,
    }
}

/// The sign or negation that stands first, if one does. It is passed then.
#[inline(always)]
pub(crate) fn take_front(words: &mut Symbols<'_>, front: Front) -> Option<Prefix>
    ensures some { IfSome result (λ sign. NextOf (finds_front front) words.old sign words.new) }
    ensures none { IfNone result (NoNext (finds_front front) words.old × (words.new ≡ words.old)) }
{
    let first = words.mark()?;
    let sign = sign_in(&first, front)?;
    words.pass();
    Some(sign)
}

/// The sign or negation that a word is.
#[inline(always)]
fn sign_in(symbol: &Symbol, front: Front) -> Option<Prefix>
    ensures { result ≡ finds_front front symbol.now }
{
    match (front, symbol) {
        (Front::Negation, Symbol::NotWord) => Some(Prefix::Not),
        (Front::Sign, Symbol::Dash) => Some(Prefix::Minus),
        (Front::Sign, Symbol::Cross) => Some(Prefix::Plus),
        _ => None,
    }
}
