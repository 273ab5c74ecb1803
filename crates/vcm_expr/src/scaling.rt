//! Scalings, which make lengths of whole numbers.

ghost use Rattle.std.specs.Prelude.{◌≡◌, ◌≤◌, List, ◌++◌, length, OnOk, IfErr};
ghost use Rattle.vcm_lines.specs.Fault.{no_memory};
ghost use Rattle.vcm_spec.specs.declared.expression.Item.{Item};
ghost use Rattle.vcm_expr.specs.inner.Trees.{scaling};
ghost use Rattle.vcm_expr.specs.Typing.{is_scaled, scaled_kind};
ghost use Rattle.vcm_num.specs.declared.number.Kind.TheVariants.{Int, Real};

use crate::packed::PackedItem;
use vcm_lines::SourceFault;
use vcm_num::Kind;
use vcm_spec::{BinaryOp, Item, UnaryOp};

/// Puts a scaling behind the last expression, where there has to be one.
pub(crate) fn scale_last(items: &mut Vec<PackedItem>, is_scaled: bool) -> Result<(), SourceFault>
    ensures ok { OnOk result (items.new.items ≡ items.old.items ++ scaling is_scaled) }
    ensures fault { IfErr result (λ f. f ≡ no_memory) }
{
    if is_scaled {
        items.push(PackedItem::new(Item::Apply(UnaryOp::Scale)))?;
    }
    Ok(())
}

/// Puts a scaling at a place, where there has to be one.
pub(crate) fn scale_at(
    items: &mut Vec<PackedItem>,
    at: usize,
    is_scaled: bool,
) -> Result<(), SourceFault>
    requires { at ≤ length items.old.items }
    ensures ok { OnOk result ((before after : List Item) → items.old.items ≡ before ++ after → length before ≡ at → items.new.items ≡ before ++ (scaling is_scaled ++ after)) }
    ensures fault { IfErr result (λ f. f ≡ no_memory) }
{
    if is_scaled {
        items.insert(at, PackedItem::new(Item::Apply(UnaryOp::Scale)))?;
    }
    Ok(())
}

/// Whether both operands of an operator have to be of one kind.
fn is_alike(op: BinaryOp) -> bool
    ensures { result ≡ is_scaled op Int Real }
{
    match op {
        BinaryOp::Mul | BinaryOp::Div => false,
        _ => true,
    }
}

/// Whether an operand of the first kind is scaled beside one of the second.
pub(crate) fn is_scaled(op: BinaryOp, k: Kind, l: Kind) -> bool
    ensures { result ≡ is_scaled op k l }
{
    match (k, l) {
        (Kind::Int, Kind::Real) => is_alike(op),
        _ => false,
    }
}

/// The kind of an operand as it stands, or scaled.
pub(crate) fn scaled_kind(is_scaled: bool, k: Kind) -> Kind
    ensures { result ≡ scaled_kind is_scaled k }
{
    if is_scaled { Kind::Real } else { k }
}
