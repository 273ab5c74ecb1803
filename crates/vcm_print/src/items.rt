//! The writing of expressions.

ghost use Rattle.std.specs.Prelude.{◌≡◌, ◌++◌};
ghost use Rattle.vcm_num.specs.Written.{Wrote};
ghost use Rattle.vcm_words.specs.Items.{item_text, operand_text, unary_text, binary_text, truth_text};
ghost use Rattle.vcm_print.specs.inner.Written.{items_bytes, more_items};

use crate::writer::{write_marked, write_two};
use itoa::Buffer;
use std::io::Write;
use vcm_fields::ItemSlice;
use vcm_num::{WriteFault, int_text, write_all};
use vcm_spec::{BinaryOp, Item, Operand, Relation, UnaryOp};

// A truth value.
fn truth(value: bool) -> &'static [u8]
    ensures { result.now ≡ truth_text value }
{
    if value { b"B1" } else { b"B0" }
}

// An operator on one value.
fn unary(op: UnaryOp) -> &'static [u8]
    ensures { result.now ≡ unary_text op }
{
    match op {
        UnaryOp::Neg => b"NEG",
        UnaryOp::Scale => b"SCALE",
        UnaryOp::Not => b"NOT",
    }
}

// An operator on two values.
fn binary(op: BinaryOp) -> &'static [u8]
    ensures { result.now ≡ binary_text op }
{
    match op {
        BinaryOp::Add => b"ADD",
        BinaryOp::Sub => b"SUB",
        BinaryOp::Mul => b"MUL",
        BinaryOp::Div => b"DIV",
        BinaryOp::And => b"AND",
        BinaryOp::Or => b"OR",
        BinaryOp::Compare(Relation::Equal) => b"EQ",
        BinaryOp::Compare(Relation::NotEqual) => b"NE",
        BinaryOp::Compare(Relation::Less) => b"LT",
        BinaryOp::Compare(Relation::LessEqual) => b"LE",
        BinaryOp::Compare(Relation::Greater) => b"GT",
        BinaryOp::Compare(Relation::GreaterEqual) => b"GE",
    }
}

// Writes an operand behind what stands in front of it.
fn write_operand<W: Write>(front: &[u8], operand: Operand, writer: &mut W) -> Result<(), WriteFault>
    ensures { Wrote (W.contents writer.old) (W.contents writer.new) (front.now ++ operand_text operand) result }
{
    match operand {
        Operand::Integer(n) => write_marked(front, b'I', int_text(n).as_slice(), writer),
        Operand::Thousandths(n) => write_marked(front, b'R', int_text(n).as_slice(), writer),
        Operand::Truth(value) => write_two(front, truth(value), writer),
        Operand::Variable(index) => {
            let mut buffer = Buffer::new();
            write_marked(front, b'V', buffer.format(index).as_bytes(), writer)
        }
    }
}

// Writes an item behind what stands in front of it.
fn write_item<W: Write>(front: &[u8], item: Item, writer: &mut W) -> Result<(), WriteFault>
    ensures { Wrote (W.contents writer.old) (W.contents writer.new) (front.now ++ item_text item) result }
{
    match item {
        Item::Push(operand) => write_operand(front, operand, writer),
        Item::Apply(op) => write_two(front, unary(op), writer),
        Item::Combine(op) => write_two(front, binary(op), writer),
    }
}

// Writes the items behind the first one, with a blank in front of each.
fn write_more<W: Write>(items: &ItemSlice<'_>, writer: &mut W) -> Result<(), WriteFault>
    ensures { Wrote (W.contents writer.old) (W.contents writer.new) (more_items items.now) result }
{
    let mut rest = items.again();
    while let Some((item, after)) = rest.split_first() {
        write_item(b" ", item, writer)?;
        rest = after;
    }
    Ok(())
}

/// Writes an expression with a blank in front of it: ` [I20 SCALE]`.
///
/// # Errors
///
/// The writer failed, or took no byte; then it has taken a front of these bytes that is not all.
pub(crate) fn write_items<W: Write>(items: &ItemSlice<'_>, writer: &mut W) -> Result<(), WriteFault>
    ensures { Wrote (W.contents writer.old) (W.contents writer.new) (items_bytes items.now) result }
{
    match items.split_first() {
        None => write_all(writer, b" []"),
        Some((item, rest)) => {
            write_item(b" [", item, writer)?;
            write_more(&rest, writer)?;
            write_all(writer, b"]")
        }
    }
}
