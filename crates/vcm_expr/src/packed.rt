//! Items as they are kept.

ghost use Rattle.std.specs.Prelude.{◌≡◌, IfOk};

use std::alloc::Global;
use std::marker::Model;
use vcm_num::{Items, NoMemory};
use vcm_spec::{BinaryOp, Item, Operand, UnaryOp};

/// An item in 16 bytes: its operand's tag is its own.
#[derive(Clone, Copy)]
pub enum FlatItem {
    Integer(i64),
    Thousandths(i64),
    Truth(bool),
    Variable(u16),
    Apply(UnaryOp),
    Combine(BinaryOp),
}

/// An item, kept in 16 bytes. Contracts see it as the item.
#[derive(Clone, Copy)]
pub struct PackedItem {
    flat: FlatItem,
}

impl Model for PackedItem {
    ghost use Rattle.vcm_spec.specs.declared.expression.Item.{Item};
    ghost use Rattle.vcm_expr.specs.inner.Packed.{item_of, flat_of};

    ghost Value = { Item };

    ghost view = { λ p. item_of p.flat };

    ghost inverse = { λ i. record { flat = flat_of i } };
}

impl PackedItem {
    /// The item, to be kept.
    #[inline(always)]
    pub(crate) fn new(item: Item) -> PackedItem
        ensures { result ≡ item }
    {
        let flat = match item {
            Item::Push(Operand::Integer(n)) => FlatItem::Integer(n),
            Item::Push(Operand::Thousandths(n)) => FlatItem::Thousandths(n),
            Item::Push(Operand::Truth(truth)) => FlatItem::Truth(truth),
            Item::Push(Operand::Variable(v)) => FlatItem::Variable(v),
            Item::Apply(op) => FlatItem::Apply(op),
            Item::Combine(op) => FlatItem::Combine(op),
        };
        PackedItem { flat }
    }

    /// The item.
    #[inline(always)]
    pub(crate) fn item(&self) -> Item
        ensures { result ≡ self.now }
    {
        match self.flat {
            FlatItem::Integer(n) => Item::Push(Operand::Integer(n)),
            FlatItem::Thousandths(n) => Item::Push(Operand::Thousandths(n)),
            FlatItem::Truth(truth) => Item::Push(Operand::Truth(truth)),
            FlatItem::Variable(v) => Item::Push(Operand::Variable(v)),
            FlatItem::Apply(op) => Item::Apply(op),
            FlatItem::Combine(op) => Item::Combine(op),
        }
    }
}

/// The items that are kept, on their own.
///
/// Errors: want of memory.
pub(crate) fn unpacked(alloc: Global, items: &[PackedItem]) -> Result<Items<Item>, NoMemory>
    ensures { IfOk result (λ all. all ≡ items.now) }
{
    let mut all = Vec::with_capacity(alloc, items.len())?;
    for item in items {
        match item.flat {
            FlatItem::Integer(n) => all.push(Item::Push(Operand::Integer(n)))?,
            FlatItem::Thousandths(n) => all.push(Item::Push(Operand::Thousandths(n)))?,
            FlatItem::Truth(truth) => all.push(Item::Push(Operand::Truth(truth)))?,
            FlatItem::Variable(v) => all.push(Item::Push(Operand::Variable(v)))?,
            FlatItem::Apply(op) => all.push(Item::Apply(op))?,
            FlatItem::Combine(op) => all.push(Item::Combine(op))?,
        }
    }
    Ok(Items::from_vec(all))
}
