//! The writing of expressions and statements.

ghost use Rattle.std.specs.Prelude.{◌≡◌, ◌<◌, ◌≤◌, ◌^◌, ◌++◌, ◌∷◌, [], length, OnOk, FitsSigned};
ghost use Rattle.std.specs.List.{flat_map, AllByRecursion};
ghost use Rattle.std.specs.Int.{w64};
ghost use Rattle.vcm_spec.specs.TextBytes.{IsText};
ghost use Rattle.vcm_code.specs.Ranges.{IsShort, IsRanged, OpInRange};
ghost use Rattle.vcm_code.specs.Shape.{InOperands};
ghost use Rattle.vcm_fields.specs.Fields.{in_plain};
ghost use Rattle.vcm_fields.specs.Widths.{FitsItem, FitsBranch, HasWidth, LineHasWidths};
ghost use Rattle.vcm_image.specs.inner.Meeting.{FieldMeets};
ghost use Rattle.vcm_fields.specs.Spelling.{signed, item as item_bytes, expression as expression_bytes, three as three_bytes, short as short_bytes, long as long_bytes, text as text_bytes, branches as branches_bytes, place, operands as operand_bytes, line as line_bytes};

use crate::bytes::{
    axis_byte, binary_byte, direction_byte, setting_byte, source_byte, unary_byte, word_byte,
};
use vcm_code::{Branch, OwnedOp, OwnedStatement};
use vcm_fields::{Field, OwnedField, fields_of};
use vcm_num::{Items, NoMemory};
use vcm_spec::{Item, Operand};

/// Appends a byte.
pub(crate) fn byte(out: &mut Vec<u8>, number: u8) -> Result<(), NoMemory>
    ensures { OnOk result (out.new.items ≡ out.old.items ++ number ∷ []) }
{
    out.push(number)?;
    Ok(())
}

/// Appends a number of two bytes.
pub(crate) fn short(out: &mut Vec<u8>, number: u16) -> Result<(), NoMemory>
    ensures { OnOk result (out.new.items ≡ out.old.items ++ short_bytes number) }
{
    out.extend_from_slice(&number.to_le_bytes())?;
    Ok(())
}

/// Appends a number of four bytes.
pub(crate) fn long(out: &mut Vec<u8>, number: u32) -> Result<(), NoMemory>
    ensures { OnOk result (out.new.items ≡ out.old.items ++ long_bytes number) }
{
    out.extend_from_slice(&number.to_le_bytes())?;
    Ok(())
}

// Appends a tag and a number with its sign.
fn tagged(out: &mut Vec<u8>, tag: u8, number: i64) -> Result<(), NoMemory>
    ensures { OnOk result (out.new.items ≡ out.old.items ++ tag ∷ signed number) }
{
    out.push(tag)?;
    out.extend_from_slice(&number.cast_unsigned().to_le_bytes())?;
    Ok(())
}

// Appends an item.
fn item(out: &mut Vec<u8>, item: Item) -> Result<(), NoMemory>
    ensures bytes { OnOk result (out.new.items ≡ out.old.items ++ item_bytes item) }
    ensures fits { FitsItem item }
{
    match item {
        Item::Push(Operand::Integer(number)) => tagged(out, 1, number),
        Item::Push(Operand::Thousandths(number)) => tagged(out, 2, number),
        Item::Push(Operand::Truth(truth)) => {
            byte(out, 3)?;
            byte(out, if truth { 1 } else { 0 })
        }
        Item::Push(Operand::Variable(variable)) => {
            byte(out, 4)?;
            short(out, variable)
        }
        Item::Apply(op) => byte(out, unary_byte(op)),
        Item::Combine(op) => byte(out, binary_byte(op)),
    }
}

// Appends an expression.
fn expression(out: &mut Vec<u8>, items: &Items<Item>) -> Result<(), NoMemory>
    requires { IsShort items.now }
    ensures bytes { OnOk result (out.new.items ≡ out.old.items ++ expression_bytes items.now) }
    ensures widths { OnOk result (AllByRecursion FitsItem items.now) }
{
    short(out, items.len() as u16)?;
    for x in items.as_slice() {
        item(out, *x)?;
    }
    Ok(())
}

// Appends three expressions.
fn three(
    out: &mut Vec<u8>,
    x: &Items<Item>,
    y: &Items<Item>,
    z: &Items<Item>,
) -> Result<(), NoMemory>
    requires { IsShort x.now × IsShort y.now × IsShort z.now }
    ensures bytes { OnOk result (out.new.items ≡ out.old.items ++ three_bytes x.now y.now z.now) }
    ensures widths { OnOk result (AllByRecursion FitsItem x.now × AllByRecursion FitsItem y.now × AllByRecursion FitsItem z.now) }
{
    expression(out, x)?;
    expression(out, y)?;
    expression(out, z)?;
    Ok(())
}

// Appends a text.
fn text(out: &mut Vec<u8>, bytes: &Items<u8>) -> Result<(), NoMemory>
    requires { IsText bytes.now }
    ensures { OnOk result (out.new.items ≡ out.old.items ++ text_bytes bytes.now) }
{
    short(out, bytes.len() as u16)?;
    out.extend_from_slice(bytes.as_slice())?;
    Ok(())
}

// Appends a number with its sign.
fn number(out: &mut Vec<u8>, number: i64) -> Result<(), NoMemory>
    ensures { OnOk result (out.new.items ≡ out.old.items ++ signed number) }
{
    out.extend_from_slice(&number.cast_unsigned().to_le_bytes())?;
    Ok(())
}

// Appends a branch.
fn branch(out: &mut Vec<u8>, value: i64, target: u32) -> Result<(), NoMemory>
    ensures bytes { OnOk result (out.new.items ≡ out.old.items ++ (signed value ++ long_bytes target)) }
    ensures fits { FitsSigned w64 value × (target < 2 ^ 32) }
{
    number(out, value)?;
    long(out, target)?;
    Ok(())
}

// Appends branches.
fn branches(out: &mut Vec<u8>, branches: &Items<Branch>) -> Result<(), NoMemory>
    requires { length branches.now ≤ 20000 }
    ensures bytes { OnOk result (out.new.items ≡ out.old.items ++ branches_bytes branches.now) }
    ensures widths { OnOk result (AllByRecursion FitsBranch branches.now) }
{
    short(out, branches.len() as u16)?;
    for Branch { value, target } in branches.as_slice() {
        branch(out, *value, *target)?;
    }
    Ok(())
}

// Appends the index of a variable and an expression.
fn assigned(out: &mut Vec<u8>, variable: u16, value: &Items<Item>) -> Result<(), NoMemory>
    requires { IsShort value.now }
    ensures bytes { OnOk result (out.new.items ≡ out.old.items ++ (short_bytes variable ++ expression_bytes value.now)) }
    ensures widths { OnOk result (AllByRecursion FitsItem value.now) }
{
    short(out, variable)?;
    expression(out, value)?;
    Ok(())
}

// Appends what stands in one place.
fn field(out: &mut Vec<u8>, field: &OwnedField<'_>) -> Result<(), NoMemory>
    requires { FieldMeets IsRanged field.now }
    ensures bytes { OnOk result (out.new.items ≡ out.old.items ++ in_plain place field.now) }
    ensures widths { OnOk result (FieldMeets HasWidth field.now) }
{
    match field {
        Field::Nothing => Ok(()),
        Field::Variable(_, n) | Field::Feature(n) | Field::Frame(n) => short(out, *n),
        Field::Pair(n) => byte(out, *n),
        Field::Target(to) => long(out, *to),
        Field::Items(_, items) => expression(out, items),
        Field::Three(_, x, y, z) => three(out, x, y, z),
        Field::Assigned(variable, value) => assigned(out, *variable, value),
        Field::Toward(axis) => byte(out, axis_byte(*axis)),
        Field::Direction(direction) => byte(out, direction_byte(*direction)),
        Field::Setting(which) => byte(out, setting_byte(*which)),
        Field::Source(source) => byte(out, source_byte(*source)),
        Field::Turn(axis) => byte(out, axis.number()),
        Field::Quarters(turns) => byte(out, turns.number()),
        Field::Part(word) => byte(out, word.number()),
        Field::Text(bytes) => text(out, bytes),
        Field::Branches(among) => branches(out, among),
    }
}

// Appends what stands in places, one behind the other.
fn fields(out: &mut Vec<u8>, fields: &[OwnedField<'_>]) -> Result<(), NoMemory>
    requires { AllByRecursion (FieldMeets IsRanged) fields.now }
    ensures bytes { OnOk result (out.new.items ≡ out.old.items ++ flat_map (in_plain place) fields.now) }
    ensures widths { OnOk result (AllByRecursion (FieldMeets HasWidth) fields.now) }
{
    for it in fields {
        field(out, it)?;
    }
    Ok(())
}

// Appends the operands of a statement.
fn operands(out: &mut Vec<u8>, op: &OwnedOp) -> Result<(), NoMemory>
    requires { OpInRange op.now }
    ensures bytes { OnOk result (out.new.items ≡ out.old.items ++ operand_bytes op.now) }
    ensures widths { OnOk result (InOperands HasWidth op.now) }
{
    fields(out, &fields_of(op))
}

/// Appends a statement: its word, its line, its operands.
pub(crate) fn statement(out: &mut Vec<u8>, statement: &OwnedStatement) -> Result<(), NoMemory>
    requires { OpInRange statement.now.op }
    ensures bytes { OnOk result (out.new.items ≡ out.old.items ++ line_bytes statement.now) }
    ensures widths { OnOk result (LineHasWidths statement.now) }
{
    byte(out, word_byte(&statement.op))?;
    long(out, statement.line)?;
    operands(out, &statement.op)?;
    Ok(())
}
