//! Postfix items.

ghost use Rattle.std.specs.Prelude.{◌≡◌, Ok, List, ℕ};
ghost use Rattle.vcm_fields.specs.Spelling.{tag_byte};
ghost use Rattle.vcm_fields.specs.Readers.{Gives, Begins, among, all_tags, behind_tag, item_at, truth_at};

use crate::fault::ImageFault;
use crate::fields::{byte, byte_below, known_byte, known_short, known_signed, short, signed};
use crate::standing::known;
use vcm_spec::{BinaryOp, Item, Operand, Relation, UnaryOp};

/// What an item begins with: what it pushes, or its operator.
#[derive(Clone, Copy)]
pub enum Tag {
    /// A whole number.
    Integer,
    /// A number of thousandths.
    Thousandths,
    /// A truth value.
    Truth,
    /// A variable.
    Variable,
    /// An operator on one value.
    Unary(UnaryOp),
    /// An operator on two values.
    Binary(BinaryOp),
}

// The tag with a byte.
#[inline(always)]
fn tag_with(number: u8) -> Result<Tag, ImageFault>
    ensures { (rest : List ℕ) → Gives (λ t. (t, rest)) result (among tag_byte all_tags number rest) }
{
    match number {
        1 => Ok(Tag::Integer),
        2 => Ok(Tag::Thousandths),
        3 => Ok(Tag::Truth),
        4 => Ok(Tag::Variable),
        16 => Ok(Tag::Unary(UnaryOp::Neg)),
        17 => Ok(Tag::Binary(BinaryOp::Add)),
        18 => Ok(Tag::Binary(BinaryOp::Sub)),
        19 => Ok(Tag::Binary(BinaryOp::Mul)),
        20 => Ok(Tag::Binary(BinaryOp::Div)),
        21 => Ok(Tag::Unary(UnaryOp::Scale)),
        32 => Ok(Tag::Binary(BinaryOp::Compare(Relation::Equal))),
        33 => Ok(Tag::Binary(BinaryOp::Compare(Relation::NotEqual))),
        34 => Ok(Tag::Binary(BinaryOp::Compare(Relation::Less))),
        35 => Ok(Tag::Binary(BinaryOp::Compare(Relation::LessEqual))),
        36 => Ok(Tag::Binary(BinaryOp::Compare(Relation::Greater))),
        37 => Ok(Tag::Binary(BinaryOp::Compare(Relation::GreaterEqual))),
        48 => Ok(Tag::Unary(UnaryOp::Not)),
        49 => Ok(Tag::Binary(BinaryOp::And)),
        50 => Ok(Tag::Binary(BinaryOp::Or)),
        _ => Err(ImageFault::BadField),
    }
}

// A truth value: a byte that is 0 or 1.
#[inline(always)]
fn truth(bytes: &[u8]) -> Result<(bool, &[u8]), ImageFault>
    ensures { Gives (λ x. (x.0, x.1.now)) result (truth_at bytes.now) }
{
    let (number, rest) = byte_below(2, bytes)?;
    Ok((number == 1, rest))
}

// The item behind its tag.
#[inline(always)]
fn behind(tag: Tag, bytes: &[u8]) -> Result<(Item, &[u8]), ImageFault>
    ensures { Gives (λ x. (x.0, x.1.now)) result (behind_tag tag bytes.now) }
{
    match tag {
        Tag::Integer => {
            let (number, rest) = signed(bytes)?;
            Ok((Item::Push(Operand::Integer(number)), rest))
        }
        Tag::Thousandths => {
            let (number, rest) = signed(bytes)?;
            Ok((Item::Push(Operand::Thousandths(number)), rest))
        }
        Tag::Truth => {
            let (truth, rest) = truth(bytes)?;
            Ok((Item::Push(Operand::Truth(truth)), rest))
        }
        Tag::Variable => {
            let (variable, rest) = short(bytes)?;
            Ok((Item::Push(Operand::Variable(variable)), rest))
        }
        Tag::Unary(op) => Ok((Item::Apply(op), bytes)),
        Tag::Binary(op) => Ok((Item::Combine(op), bytes)),
    }
}

/// A postfix item: its tag, and what it pushes.
///
/// # Errors
///
/// Short; BadField where no item has the tag, or a truth value is neither 0 nor 1.
#[tactic(auto, unfolding(crate::specs::Readers::item_at))]
#[inline(always)]
pub(crate) fn item(bytes: &[u8]) -> Result<(Item, &[u8]), ImageFault>
    ensures { Gives (λ x. (x.0, x.1.now)) result (item_at bytes.now) }
{
    let (number, rest) = byte(bytes)?;
    behind(tag_with(number)?, rest)
}

// The item behind its tag, where it is known that it stands there.
#[inline(always)]
fn known_behind(tag: Tag, bytes: &[u8]) -> (Item, &[u8])
    requires { Begins (behind_tag tag) (λ i. Unit {0}) bytes.now }
    ensures { behind_tag tag bytes.now ≡ Ok (result.0, result.1.now) }
{
    match tag {
        Tag::Integer => {
            let (number, rest) = known_signed(bytes);
            (Item::Push(Operand::Integer(number)), rest)
        }
        Tag::Thousandths => {
            let (number, rest) = known_signed(bytes);
            (Item::Push(Operand::Thousandths(number)), rest)
        }
        Tag::Truth => {
            let (number, rest) = known_byte(bytes);
            (Item::Push(Operand::Truth(number == 1)), rest)
        }
        Tag::Variable => {
            let (variable, rest) = known_short(bytes);
            (Item::Push(Operand::Variable(variable)), rest)
        }
        Tag::Unary(op) => (Item::Apply(op), bytes),
        Tag::Binary(op) => (Item::Combine(op), bytes),
    }
}

/// The item that the bytes begin with, and the bytes behind it, where it is known that one stands there: whether bytes are left is not tested.
#[inline(always)]
pub fn known_item(bytes: &[u8]) -> (Item, &[u8])
    requires { Begins item_at (λ i. Unit {0}) bytes.now }
    ensures { item_at bytes.now ≡ Ok (result.0, result.1.now) }
{
    let (number, rest) = known_byte(bytes);
    known_behind(known(tag_with(number)), rest)
}
