//! The parser of expressions.

ghost use Rattle.std.specs.Prelude.{◌≡◌, ◌≤◌, List, Err, length, IfOk, OnOk, IfErr};
ghost use Rattle.vcm_lines.specs.Fault.{NoMemoryOr};
ghost use Rattle.vcm_lines.specs.declared.fault.FaultCode.{FaultCode};
ghost use Rattle.vcm_expr.specs.Parsing.{ReadAs, read_symbols};
ghost use Rattle.vcm_expr.specs.Parser.{leaf_by};
ghost use Rattle.vcm_expr.specs.declared.levels.Chain.TheVariants as levels;
ghost use Rattle.vcm_expr.specs.inner.Levels.{chain_in, front_in, fronted_in, signed_in, relation_in, primary_in, group_in, lone_of, Told, Reads};
ghost use Rattle.vcm_expr.specs.declared.symbol.Symbol.{Symbol};

use crate::draft::Draft;
use crate::expression::{Expr, Prefix, Size, Term, too_deep};
use crate::levels::{Chain, Front, take_closing, take_front, take_operator, take_relation};
use crate::signs::{take_signs, with_signs};
use crate::symbol::{Symbol, Symbols};
use std::alloc::Global;
use vcm_lines::{FaultCode, SourceFault, bad_syntax};

/// The most pairs of parentheses that may be open at once.
const MOST_OPEN: u32 = vcm_num::DEEPEST_EXPRESSION as u32;

/// The expression that all the words spell.
pub(crate) fn whole(alloc: Global, line: u32, words: Symbols<'_>) -> Result<Expr, SourceFault>
    ensures { ReadAs line (λ e. e) result (read_symbols words.entry) }
{
    if let Some(term) = words.lone() {
        return lone(line, term);
    }
    let mut words = words;
    let mut draft = Draft::new(alloc, words.parts())?;
    let size = disjunction(alloc, &mut draft, line, &mut words, MOST_OPEN)?;
    if words.is_empty() {
        Ok(draft.finish(size))
    } else {
        Err(bad_syntax(line))
    }
}

/// The expression of a word that stands alone, or what is wrong with it.
fn lone(line: u32, term: Result<Term, FaultCode>) -> Result<Expr, SourceFault>
    ensures { ReadAs line (λ e. e) result (lone_of term) }
{
    match term {
        Ok(term) => Ok(Expr::leaf(term)),
        Err(code) => Err(SourceFault { code, line }),
    }
}

/// Conjunctions with `.OR.` between them: a whole expression. `room` pairs of parentheses may be opened.
#[cycle(parser)]
fn disjunction(
    alloc: Global,
    draft: &mut Draft,
    line: u32,
    words: &mut Symbols<'_>,
    room: u32,
) -> Result<Size, SourceFault>
    ensures ok { IfOk result (λ size. Reads (chain_in levels.Disjunction room words.old) draft.old draft.new size words.new) }
    ensures fault { IfErr result (NoMemoryOr (Told line (chain_in levels.Disjunction room words.old))) }
    ensures shorter { OnOk result (length words.new ≤ length words.old) }
{
    let mut left = conjunction(alloc, draft, line, words, room)?;
    while let Some(op) = take_operator(words, Chain::Disjunction) {
        let right = conjunction(alloc, draft, line, words, room)?;
        left = draft.joined(line, op, left, right)?;
    }
    Ok(left)
}

/// Negations with `.AND.` between them.
#[cycle(parser)]
#[inline(always)]
fn conjunction(
    alloc: Global,
    draft: &mut Draft,
    line: u32,
    words: &mut Symbols<'_>,
    room: u32,
) -> Result<Size, SourceFault>
    ensures ok { IfOk result (λ size. Reads (chain_in levels.Conjunction room words.old) draft.old draft.new size words.new) }
    ensures fault { IfErr result (NoMemoryOr (Told line (chain_in levels.Conjunction room words.old))) }
    ensures shorter { OnOk result (length words.new ≤ length words.old) }
{
    let mut left = fronted(alloc, draft, line, words, room, Front::Negation)?;
    while let Some(op) = take_operator(words, Chain::Conjunction) {
        let right = fronted(alloc, draft, line, words, room, Front::Negation)?;
        left = draft.joined(line, op, left, right)?;
    }
    Ok(left)
}

/// Products with `+` and `-` between them.
#[cycle(parser)]
fn sum(
    alloc: Global,
    draft: &mut Draft,
    line: u32,
    words: &mut Symbols<'_>,
    room: u32,
) -> Result<Size, SourceFault>
    ensures ok { IfOk result (λ size. Reads (chain_in levels.Sum room words.old) draft.old draft.new size words.new) }
    ensures fault { IfErr result (NoMemoryOr (Told line (chain_in levels.Sum room words.old))) }
    ensures shorter { OnOk result (length words.new ≤ length words.old) }
{
    let mut left = product(alloc, draft, line, words, room)?;
    while let Some(op) = take_operator(words, Chain::Sum) {
        let right = product(alloc, draft, line, words, room)?;
        left = draft.joined(line, op, left, right)?;
    }
    Ok(left)
}

/// Signed operands with `*` and `/` between them.
#[cycle(parser)]
#[inline(always)]
fn product(
    alloc: Global,
    draft: &mut Draft,
    line: u32,
    words: &mut Symbols<'_>,
    room: u32,
) -> Result<Size, SourceFault>
    ensures ok { IfOk result (λ size. Reads (chain_in levels.Product room words.old) draft.old draft.new size words.new) }
    ensures fault { IfErr result (NoMemoryOr (Told line (chain_in levels.Product room words.old))) }
    ensures shorter { OnOk result (length words.new ≤ length words.old) }
{
    let mut left = fronted(alloc, draft, line, words, room, Front::Sign)?;
    while let Some(op) = take_operator(words, Chain::Product) {
        let right = fronted(alloc, draft, line, words, room, Front::Sign)?;
        left = draft.joined(line, op, left, right)?;
    }
    Ok(left)
}

/// An operand with signs or negations before it.
#[cycle(parser)]
#[inline(always)]
fn fronted(
    alloc: Global,
    draft: &mut Draft,
    line: u32,
    words: &mut Symbols<'_>,
    room: u32,
    front: Front,
) -> Result<Size, SourceFault>
    ensures ok { IfOk result (λ size. Reads (front_in front room words.old) draft.old draft.new size words.new) }
    ensures fault { IfErr result (NoMemoryOr (Told line (front_in front room words.old))) }
    ensures shorter { OnOk result (length words.new ≤ length words.old) }
{
    let Some(sign) = take_front(words, front) else {
        return under(alloc, draft, line, words, room, front);
    };
    signed(alloc, draft, line, words, room, front, sign)
}

/// What stands behind a sign or a negation, with that before it. Most operands have none.
#[cycle(parser)]
#[inline(never)]
fn signed(
    alloc: Global,
    draft: &mut Draft,
    line: u32,
    words: &mut Symbols<'_>,
    room: u32,
    front: Front,
    sign: Prefix,
) -> Result<Size, SourceFault>
    ensures ok { IfOk result (λ size. Reads (signed_in sign front room words.old) draft.old draft.new size words.new) }
    ensures fault { IfErr result (NoMemoryOr (Told line (signed_in sign front room words.old))) }
    ensures shorter { OnOk result (length words.new ≤ length words.old) }
{
    let operand = behind_sign(alloc, draft, line, words, room, front)?;
    let size = draft.prefixed(line, sign, operand)?;
    Ok(size)
}

/// What stands behind a sign or a negation, with more of them before it or with none.
#[cycle(parser)]
#[inline(always)]
fn behind_sign(
    alloc: Global,
    draft: &mut Draft,
    line: u32,
    words: &mut Symbols<'_>,
    room: u32,
    front: Front,
) -> Result<Size, SourceFault>
    ensures ok { IfOk result (λ size. Reads (front_in front room words.old) draft.old draft.new size words.new) }
    ensures fault { IfErr result (NoMemoryOr (Told line (front_in front room words.old))) }
    ensures shorter { OnOk result (length words.new ≤ length words.old) }
{
    let signs = take_signs(alloc, words, front)?;
    let size = under(alloc, draft, line, words, room, front)?;
    let size = with_signs(draft, line, signs, size)?;
    Ok(size)
}

/// What signs or negations stand before.
#[cycle(parser)]
#[inline(always)]
fn under(
    alloc: Global,
    draft: &mut Draft,
    line: u32,
    words: &mut Symbols<'_>,
    room: u32,
    front: Front,
) -> Result<Size, SourceFault>
    ensures ok { IfOk result (λ size. Reads (fronted_in front room words.old) draft.old draft.new size words.new) }
    ensures fault { IfErr result (NoMemoryOr (Told line (fronted_in front room words.old))) }
    ensures shorter { OnOk result (length words.new ≤ length words.old) }
{
    match front {
        Front::Negation => relation(alloc, draft, line, words, room),
        Front::Sign => primary(alloc, draft, line, words, room),
    }
}

/// A sum, or two with a relation between them.
#[cycle(parser)]
#[inline(always)]
fn relation(
    alloc: Global,
    draft: &mut Draft,
    line: u32,
    words: &mut Symbols<'_>,
    room: u32,
) -> Result<Size, SourceFault>
    ensures ok { IfOk result (λ size. Reads (relation_in room words.old) draft.old draft.new size words.new) }
    ensures fault { IfErr result (NoMemoryOr (Told line (relation_in room words.old))) }
    ensures shorter { OnOk result (length words.new ≤ length words.old) }
{
    let left = sum(alloc, draft, line, words, room)?;
    let Some(op) = take_relation(words) else {
        return Ok(left);
    };
    let right = sum(alloc, draft, line, words, room)?;
    let both = draft.joined(line, op, left, right)?;
    Ok(both)
}

/// A number, a truth value or a name, or an expression in parentheses.
#[cycle(parser)]
#[inline(always)]
fn primary(
    alloc: Global,
    draft: &mut Draft,
    line: u32,
    words: &mut Symbols<'_>,
    room: u32,
) -> Result<Size, SourceFault>
    ensures ok { IfOk result (λ size. Reads (primary_in room words.old) draft.old draft.new size words.new) }
    ensures fault { IfErr result (NoMemoryOr (Told line (primary_in room words.old))) }
    ensures shorter { OnOk result (length words.new ≤ length words.old) }
{
    let Some(first) = words.take_first() else {
        return Err(bad_syntax(line));
    };
    match first {
        Symbol::Operand(term) => leaf(draft, line, term),
        Symbol::Opening => group(alloc, draft, line, words, room),
        _ => Err(bad_syntax(line)),
    }
}

/// What follows an opening parenthesis.
#[cycle(parser)]
fn group(
    alloc: Global,
    draft: &mut Draft,
    line: u32,
    words: &mut Symbols<'_>,
    room: u32,
) -> Result<Size, SourceFault>
    ensures ok { IfOk result (λ size. Reads (group_in room words.old) draft.old draft.new size words.new) }
    ensures fault { IfErr result (NoMemoryOr (Told line (group_in room words.old))) }
    ensures shorter { OnOk result (length words.new ≤ length words.old) }
{
    if room == 0 {
        return Err(too_deep(line));
    }
    let size = disjunction(alloc, draft, line, words, room - 1)?;
    if take_closing(words) {
        Ok(size)
    } else {
        Err(bad_syntax(line))
    }
}

/// A leaf, or what is wrong with it.
#[inline(always)]
fn leaf(draft: &mut Draft, line: u32, term: Result<Term, FaultCode>) -> Result<Size, SourceFault>
    ensures ok { IfOk result (λ s. (r : List Symbol) → Reads (leaf_by term r) draft.old draft.new s r) }
    ensures fault { IfErr result (NoMemoryOr (λ f. (f.line ≡ line) × ((r : List Symbol) → leaf_by term r ≡ Err f.code))) }
{
    match term {
        Ok(term) => draft.leaf(term),
        Err(code) => Err(SourceFault { code, line }),
    }
}
