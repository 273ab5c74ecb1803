//! From expressions as they are written to typed ones.

ghost use Rattle.std.specs.Prelude.{◌≡◌, ◌<◌, ◌≤◌, true, List, ◌∷◌, ◌++◌, length, Some, Ok, Err, IfOk, OnOk, IfErr};
ghost use Rattle.vcm_lines.specs.Fault.{NoMemoryOr, no_memory};
ghost use Rattle.vcm_lines.specs.declared.fault.FaultCode.{FaultCode};
ghost use Rattle.vcm_spec.specs.declared.expression.Item.{Item};
ghost use Rattle.vcm_spec.specs.Expression.{Tree, Value, kind_of, spelling};
ghost use Rattle.vcm_expr.specs.declared.expression.Term.{Term};
ghost use Rattle.vcm_expr.specs.Source.{parts, Source, Plain, is_small};
ghost use Rattle.vcm_expr.specs.inner.Pieces.{with_piece};
ghost use Rattle.vcm_expr.specs.inner.Trees.{Spelled, SpelledFor};
ghost use Rattle.vcm_expr.specs.inner.Typings.{AreTyped, Fails};
ghost use Rattle.vcm_spec.specs.Setup.{Variable, kinds_of};
ghost use Rattle.vcm_expr.specs.Typing.{kinded, leaf_of, prefixed_by, pair_by, typed_of, typed_for, wanted_by, wanted_kind};

use crate::expression::{Expr, Piece, Prefix, Term};
use crate::leaves::{leaf, number, variable};
use crate::names::Names;
use crate::packed::PackedItem;
use crate::scaling::{is_scaled, scale_at, scale_last, scaled_kind};
use crate::typed::{Typed, usual_items};
use std::alloc::Global;
use vcm_items::BoundedStack;
use vcm_items::operators::kind_of_binary;
use vcm_lines::{FaultCode, SourceFault};
use vcm_num::Kind;
use vcm_spec::{BinaryOp, Item, Operand, UnaryOp};

/// What the place of an expression takes.
#[derive(Clone, Copy)]
pub enum Want {
    /// A whole number.
    Int,
    /// A length in thousandths of a millimetre: a number with a point, or a whole one times 1,000.
    Length,
    /// A truth value.
    Bool,
}

/// An operand whose items are there: its kind, and the place of its first item.
#[derive(Clone, Copy)]
struct OpenOperand {
    kind: Kind,
    start: usize,
}

impl Default for OpenOperand {
    fn default() -> OpenOperand {
        OpenOperand {
            kind: Kind::Int,
            start: 0,
        }
    }
}

/// The typed expression for a place. Scalings are written out where a whole number meets a number of thousandths or stands in a length's
/// place, and unary plus is left out.
///
/// # Errors
///
/// The leftmost fault, told at `line`: a name that is not declared, or an operator or a place that doesn't take a value of this kind. Want
/// of memory.
pub fn type_expr(
    alloc: Global,
    e: &Expr,
    line: u32,
    names: &Names,
    want: Want,
) -> Result<Typed, SourceFault>
    ensures ok { IfOk result (λ t. typed_for names.now want e.now ≡ Ok t) }
    ensures kind { IfOk result (λ t. kind_of (kinds_of names.now) t ≡ Some (wanted_kind want)) }
    ensures fault { IfErr result (NoMemoryOr (λ f. (f.line ≡ line) × (typed_for names.now want e.now ≡ Err f.code))) }
{
    if let Some(term) = e.as_leaf() {
        let typed = type_leaf(&term, line, names, want)?;
        return Ok(typed);
    }
    let typed = type_pieces(alloc, e.pieces(), line, names, want)?;
    Ok(typed)
}

/// An operand of this kind for a place, scaled where it has to be.
fn fit_leaf(x: Operand, kind: Kind, line: u32, want: Want) -> Result<Typed, SourceFault>
    ensures ok { IfOk result (λ t. wanted_by want (Value x) kind ≡ Ok t) }
    ensures fault { IfErr result (λ f. (f.line ≡ line) × (wanted_by want (Value x) kind ≡ Err f.code)) }
{
    match (want, kind) {
        (Want::Int, Kind::Int) | (Want::Length, Kind::Real) | (Want::Bool, Kind::Bool) => {
            Ok(Typed::leaf(x))
        }
        (Want::Length, Kind::Int) => Ok(Typed::scaled(x)),
        _ => Err(bad_type(line)),
    }
}

/// The typed expression for a place where a number, a truth value or a variable stands alone.
fn type_leaf(term: &Term, line: u32, names: &Names, want: Want) -> Result<Typed, SourceFault>
    ensures ok { IfOk result (λ t. typed_for names.now want (Plain term.now) ≡ Ok t) }
    ensures fault { IfErr result (λ f. (f.line ≡ line) × (typed_for names.now want (Plain term.now) ≡ Err f.code)) }
{
    let (x, kind) = leaf(term, line, names)?;
    let typed = fit_leaf(x, kind, line, want)?;
    Ok(typed)
}

/// The typed expression for a place where the expression stands that the parts are.
fn type_pieces(
    alloc: Global,
    pieces: &[Piece],
    line: u32,
    names: &Names,
    want: Want,
) -> Result<Typed, SourceFault>
    requires { (e : Source) × (pieces.now ≡ parts e) × (is_small e ≡ true) }
    ensures ok { IfOk result (λ t. (e : Source) → pieces.now ≡ parts e → typed_for names.now want e ≡ Ok t) }
    ensures fault { IfErr result (NoMemoryOr (λ f. (f.line ≡ line) × ((e : Source) → pieces.now ≡ parts e → typed_for names.now want e ≡ Err f.code))) }
{
    let mut items = Vec::with_capacity(alloc, usual_items(pieces, want))?;
    let kind = typed(&mut items, pieces, line, names)?;
    demand(&mut items, kind, line, want)?;
    items.shrink_to_fit();
    Ok(Typed::new(items))
}

/// Fits the only expression among the items, which is of this kind, to a place.
fn demand(items: &mut Vec<PackedItem>, k: Kind, line: u32, want: Want) -> Result<(), SourceFault>
    ensures ok { OnOk result ((t : Tree) → items.old.items ≡ spelling t → SpelledFor (wanted_by want t k) items.new.items) }
    ensures fault { IfErr result (NoMemoryOr (λ f. (f.line ≡ line) × ((t : Tree) → wanted_by want t k ≡ Err f.code))) }
{
    match (want, k) {
        (Want::Int, Kind::Int) | (Want::Length, Kind::Real) | (Want::Bool, Kind::Bool) => Ok(()),
        (Want::Length, Kind::Int) => {
            items.push(PackedItem::new(Item::Apply(UnaryOp::Scale)))?;
            Ok(())
        }
        _ => Err(bad_type(line)),
    }
}

/// Appends the items of the expression that the parts are, and returns its kind.
fn typed(
    items: &mut Vec<PackedItem>,
    pieces: &[Piece],
    line: u32,
    names: &Names,
) -> Result<Kind, SourceFault>
    requires { (e : Source) × (pieces.now ≡ parts e) × (is_small e ≡ true) }
    ensures ok { IfOk result (λ k. (e : Source) → pieces.now ≡ parts e → Spelled (typed_of names.now e) items.old.items items.new.items k) }
    ensures fault { IfErr result (NoMemoryOr (λ f. (f.line ≡ line) × ((e : Source) → pieces.now ≡ parts e → typed_of names.now e ≡ Err f.code))) }
{
    let mut open = BoundedStack::new();
    for piece in pieces {
        step(items, &mut open, piece, line, names)?;
    }
    match open.pop() {
        Some(last) => Ok(last.kind),
        None => unreachable!(),
    }
}

/// Goes on by one part: a leaf is one more operand, a sign and an operator take theirs.
fn step(
    items: &mut Vec<PackedItem>,
    open: &mut BoundedStack<OpenOperand>,
    piece: &Piece,
    line: u32,
    names: &Names,
) -> Result<(), SourceFault>
    requires { (es : List Source) × (before : List Item) × AreTyped names.now es open.old before items.old.items × (length (with_piece piece.now es) ≤ 32) }
    ensures ok { OnOk result ((es : List Source) (before : List Item) → AreTyped names.now es open.old before items.old.items
        → AreTyped names.now (with_piece piece.now es) open.new before items.new.items) }
    ensures fault { IfErr result (NoMemoryOr (λ f. (f.line ≡ line) × ((es : List Source) (before : List Item)
        → AreTyped names.now es open.old before items.old.items → Fails names.now f.code (with_piece piece.now es)))) }
{
    match piece {
        Piece::Number(literal) => {
            let (x, kind) = number(*literal);
            push_operand(items, open, x, kind)?;
        }
        Piece::Truth(truth) => push_operand(items, open, Operand::Truth(*truth), Kind::Bool)?,
        Piece::Variable(name, expansion) => {
            let (x, kind) = variable(name, *expansion, line, names)?;
            push_operand(items, open, x, kind)?;
        }
        Piece::Front(prefix) => {
            if open.len() < 1 {
                return Ok(());
            }
            let a = open.top();
            let kind = prefixed(items, *prefix, a.kind, line)?;
            open.replace_top(OpenOperand {
                kind,
                start: a.start,
            });
        }
        Piece::Between(op) => {
            if open.len() < 2 {
                return Ok(());
            }
            let b = open.take();
            let a = open.top();
            let kind = pair(items, b.start, *op, a.kind, b.kind, line)?;
            open.replace_top(OpenOperand {
                kind,
                start: a.start,
            });
        }
    }
    Ok(())
}

/// One more operand, which is of this kind.
fn push_operand(
    items: &mut Vec<PackedItem>,
    open: &mut BoundedStack<OpenOperand>,
    x: Operand,
    kind: Kind,
) -> Result<(), SourceFault>
    requires { length open.old < 32 }
    ensures ok { OnOk result ((vs : List Variable) (t : Term) (es : List Source) (before : List Item) → leaf_of vs t ≡ kinded (Value x) kind
        → AreTyped vs es open.old before items.old.items → AreTyped vs (Plain t ∷ es) open.new before items.new.items) }
    ensures fault { IfErr result (λ f. f ≡ no_memory) }
{
    let start = items.len();
    items.push(PackedItem::new(Item::Push(x)))?;
    open.push(OpenOperand { kind, start });
    Ok(())
}

/// Puts a sign or a negation behind its operand, which is of this kind, and returns the kind of both.
fn prefixed(
    items: &mut Vec<PackedItem>,
    prefix: Prefix,
    k: Kind,
    line: u32,
) -> Result<Kind, SourceFault>
    ensures ok { IfOk result (λ j. (before : List Item) (t : Tree) → items.old.items ≡ before ++ spelling t → Spelled (prefixed_by prefix t k) before items.new.items j) }
    ensures fault { IfErr result (NoMemoryOr (λ f. (f.line ≡ line) × ((t : Tree) → prefixed_by prefix t k ≡ Err f.code))) }
{
    match (prefix, k) {
        (Prefix::Minus, Kind::Int) | (Prefix::Minus, Kind::Real) => {
            items.push(PackedItem::new(Item::Apply(UnaryOp::Neg)))?;
            Ok(k)
        }
        (Prefix::Plus, Kind::Int) | (Prefix::Plus, Kind::Real) => Ok(k),
        (Prefix::Not, Kind::Bool) => {
            items.push(PackedItem::new(Item::Apply(UnaryOp::Not)))?;
            Ok(k)
        }
        _ => Err(bad_type(line)),
    }
}

/// Puts an operator behind its operands, which are of these kinds; the right one begins at the place `between`. Returns the kind of all.
fn pair(
    items: &mut Vec<PackedItem>,
    between: usize,
    op: BinaryOp,
    k: Kind,
    l: Kind,
    line: u32,
) -> Result<Kind, SourceFault>
    requires { between ≤ length items.old.items }
    ensures ok { IfOk result (λ j. (before : List Item) (t u : Tree) → items.old.items ≡ before ++ (spelling t ++ spelling u) → length (before ++ spelling t) ≡ between
        → Spelled (pair_by op t k u l) before items.new.items j) }
    ensures fault { IfErr result (NoMemoryOr (λ f. (f.line ≡ line) × ((t u : Tree) → pair_by op t k u l ≡ Err f.code))) }
{
    let left = is_scaled(op, k, l);
    let right = is_scaled(op, l, k);
    let Some(kind) = kind_of_binary(op, scaled_kind(left, k), scaled_kind(right, l)) else {
        return Err(bad_type(line));
    };
    scale_last(items, right)?;
    scale_at(items, between, left)?;
    items.push(PackedItem::new(Item::Combine(op)))?;
    Ok(kind)
}

/// The refusal of an operator or a place that doesn't take a value of this kind.
fn bad_type(line: u32) -> SourceFault
    ensures { result ≡ record { code = FaultCode.BadType; line = line } }
{
    SourceFault {
        code: FaultCode::BadType,
        line,
    }
}
