//! The expressions of a statement.

ghost use Rattle.std.specs.Prelude.{◌≡◌, ◌+◌, ◌∷◌, [], Some, flat_map, length, slice_get, IfOk, IfErr};
ghost use Rattle.vcm_fields.specs.Fields.{in_plain};
ghost use Rattle.vcm_loader.specs.Expressions.{place_expressions, expressions};

use vcm_fields::{BorrowedField, BorrowedOp, Field, ItemSlice, fields_of};

// The only expression, or how many are to be passed behind it.
fn one<'a>(place: usize, x: &ItemSlice<'a>) -> Result<ItemSlice<'a>, usize>
    ensures found { IfOk result (λ e. slice_get (x.now ∷ []) place ≡ Some e) }
    ensures passed { IfErr result (λ left. place ≡ 1 + left) }
{
    if place == 0 {
        Ok(x.again())
    } else {
        Err(place - 1)
    }
}

// One of three expressions, or how many are to be passed behind them.
fn three<'a>(
    place: usize,
    x: &ItemSlice<'a>,
    y: &ItemSlice<'a>,
    z: &ItemSlice<'a>,
) -> Result<ItemSlice<'a>, usize>
    ensures found { IfOk result (λ e. slice_get (x.now ∷ y.now ∷ z.now ∷ []) place ≡ Some e) }
    ensures passed { IfErr result (λ left. place ≡ 3 + left) }
{
    match place {
        0 => Ok(x.again()),
        1 => Ok(y.again()),
        2 => Ok(z.again()),
        _ => Err(place - 3),
    }
}

// The expression at a place of one field, or how many are to be passed behind it.
fn in_field<'a>(field: &BorrowedField<'_, 'a>, place: usize) -> Result<ItemSlice<'a>, usize>
    ensures found { IfOk result (λ e. slice_get (in_plain place_expressions field.now) place ≡ Some e) }
    ensures passed { IfErr result (λ left. place ≡ length (in_plain place_expressions field.now) + left) }
{
    match field {
        Field::Items(_, e) | Field::Assigned(_, e) => one(place, e),
        Field::Three(_, x, y, z) => three(place, x, y, z),
        Field::Nothing | Field::Variable(_, _) | Field::Feature(_) | Field::Frame(_) => Err(place),
        Field::Pair(_) | Field::Target(_) | Field::Toward(_) | Field::Direction(_) => Err(place),
        Field::Setting(_) | Field::Source(_) | Field::Turn(_) | Field::Quarters(_) => Err(place),
        Field::Part(_) | Field::Text(_) | Field::Branches(_) => Err(place),
    }
}

// The expression at a place of fields.
fn in_fields<'a>(fields: &[BorrowedField<'_, 'a>], place: usize) -> Option<ItemSlice<'a>>
    ensures { result ≡ slice_get (flat_map (in_plain place_expressions) fields.now) place }
{
    let mut left = place;
    for field in fields {
        match in_field(field, left) {
            Ok(found) => return Some(found),
            Err(after) => left = after,
        }
    }
    None
}

/// An expression of a statement, in the order of its operands.
pub fn expression<'a>(op: &BorrowedOp<'a>, place: usize) -> Option<ItemSlice<'a>>
    ensures { result ≡ slice_get (expressions op.now) place }
{
    in_fields(&fields_of(op), place)
}
