//! Whether a code has an image.

ghost use Rattle.std.specs.Prelude.{◌≡◌, ◌≤◌, ◌<◌, ◌^◌, true, length};
ghost use Rattle.std.specs.List.{AllByRecursion};
ghost use Rattle.vcm_code.specs.Ranges.{IsShort, IsRanged, OpInRange, AllInRange, IsOfVersion, AllAreNames, IsInRange};
ghost use Rattle.vcm_code.specs.Shape.{InOperands};
ghost use Rattle.vcm_items.specs.Names.{AreNamed};
ghost use Rattle.vcm_code.specs.Deciding.{Tells};
ghost use Rattle.vcm_fields.specs.Widths.{FitsItem, FitsBranch, HasWidth, LineHasWidths, HasWidths};
ghost use Rattle.vcm_image.specs.Whole.{FitsImage};
ghost use Rattle.vcm_image.specs.inner.Meeting.{FieldMeets};

use crate::opening::{MOST_NAMES, MOST_STATEMENTS};
use vcm_code::{Branch, Code, OwnedOp, OwnedStatement, Version, has_selection};
use vcm_fields::{Field, OwnedField, fields_of};
use vcm_items::{Name, Variable, is_name, is_variable_name};
use vcm_num::{Items, MOST_ITEMS};
use vcm_spec::{Item, is_text};

// Indexes, targets and numbers have an image's widths in memory, by their types; so what answers for them always answers true.

// Whether an index has 16 bits.
fn is_index(index: u16) -> bool
    ensures is { result ≡ true }
    ensures fits { index < 2 ^ 16 }
{
    true
}

// Whether a target, a source line or an expansion has 32 bits.
fn is_target(target: u32) -> bool
    ensures is { result ≡ true }
    ensures fits { target < 2 ^ 32 }
{
    true
}

// Whether the number or the index of an item has its bits.
fn is_item(item: Item) -> bool
    ensures is { result ≡ true }
    ensures fits { FitsItem item }
{
    true
}

// Whether those of all items have.
fn are_items(items: &[Item]) -> bool
    ensures is { result ≡ true }
    ensures fit { AllByRecursion FitsItem items.now }
{
    for it in items {
        if !is_item(*it) {
            return false;
        }
    }
    true
}

// Whether the value and the target of a branch have their bits.
fn is_branch(branch: Branch) -> bool
    ensures is { result ≡ true }
    ensures fits { FitsBranch branch }
{
    true
}

// Whether those of all branches have.
fn are_branches(branches: &[Branch]) -> bool
    ensures is { result ≡ true }
    ensures fit { AllByRecursion FitsBranch branches.now }
{
    for it in branches {
        if !is_branch(*it) {
            return false;
        }
    }
    true
}

// Whether an expression has 1 to 1,024 items.
fn is_short(items: &Items<Item>) -> bool
    ensures short { Tells result (IsShort items.now) }
    ensures widths { result ≡ true → AllByRecursion FitsItem items.now }
{
    are_items(items.as_slice()) && 1 <= items.len() && items.len() <= MOST_ITEMS
}

// Whether three expressions do.
fn are_short(x: &Items<Item>, y: &Items<Item>, z: &Items<Item>) -> bool
    ensures short { Tells result (IsShort x.now × IsShort y.now × IsShort z.now) }
    ensures widths { result ≡ true → AllByRecursion FitsItem x.now × AllByRecursion FitsItem y.now × AllByRecursion FitsItem z.now }
{
    is_short(x) && is_short(y) && is_short(z)
}

// Whether the index of a variable and an expression are in range.
fn is_assigned(variable: u16, value: &Items<Item>) -> bool
    ensures short { Tells result (IsShort value.now) }
    ensures widths { result ≡ true → (variable < 2 ^ 16) × AllByRecursion FitsItem value.now }
{
    is_index(variable) && is_short(value)
}

// Whether branches are.
fn are_few(branches: &Items<Branch>) -> bool
    ensures few { Tells result (length branches.now ≤ 20000) }
    ensures widths { result ≡ true → AllByRecursion FitsBranch branches.now }
{
    is_short_enough(branches.len()) && are_branches(branches.as_slice())
}

// Whether what stands in one place is.
fn is_ranged(field: &OwnedField<'_>) -> bool
    ensures range { Tells result (FieldMeets IsRanged field.now) }
    ensures widths { result ≡ true → FieldMeets HasWidth field.now }
{
    match field {
        Field::Variable(_, n) | Field::Feature(n) | Field::Frame(n) => is_index(*n),
        Field::Pair(n) => *n < 32,
        Field::Target(to) => is_target(*to),
        Field::Items(_, items) => is_short(items),
        Field::Three(_, x, y, z) => are_short(x, y, z),
        Field::Assigned(variable, value) => is_assigned(*variable, value),
        Field::Text(bytes) => is_text(bytes.as_slice()),
        Field::Branches(among) => are_few(among),
        Field::Nothing | Field::Toward(_) | Field::Direction(_) => true,
        Field::Setting(_) | Field::Source(_) | Field::Turn(_) => true,
        Field::Quarters(_) | Field::Part(_) => true,
    }
}

// Whether what stands in all of them is.
fn are_ranged(fields: &[OwnedField<'_>]) -> bool
    ensures range { Tells result (AllByRecursion (FieldMeets IsRanged) fields.now) }
    ensures widths { result ≡ true → AllByRecursion (FieldMeets HasWidth) fields.now }
{
    for it in fields {
        if !is_ranged(it) {
            return false;
        }
    }
    true
}

// Whether a statement's fields are.
fn op_in_range(op: &OwnedOp) -> bool
    ensures range { Tells result (OpInRange op.now) }
    ensures widths { result ≡ true → InOperands HasWidth op.now }
{
    are_ranged(&fields_of(op))
}

// Whether those of all statements are.
fn all_in_range(statements: &[OwnedStatement]) -> bool
    ensures range { Tells result (AllInRange statements.now) }
    ensures widths { result ≡ true → AllByRecursion LineHasWidths statements.now }
{
    for it in statements {
        if !(is_target(it.line) && op_in_range(&it.op)) {
            return false;
        }
    }
    true
}

// Whether all variables have names of variables.
fn are_variables(variables: &[Variable]) -> bool
    ensures named { Tells result (AreNamed variables.now) }
    ensures widths { result ≡ true → AllByRecursion (λ v. v.expansion < 2 ^ 32) variables.now }
{
    for it in variables {
        if !(is_target(it.expansion()) && is_variable_name(it.name().as_bytes())) {
            return false;
        }
    }
    true
}

// Whether these are names.
fn are_names(names: &[Name]) -> bool
    ensures { Tells result (AllAreNames names.now) }
{
    for it in names {
        if !is_name(it.as_bytes()) {
            return false;
        }
    }
    true
}

// Whether so many names aren't too many.
fn is_few(count: usize) -> bool
    ensures { Tells result (count ≤ 4096) }
{
    count <= usize::from(MOST_NAMES)
}

// Whether so many statements, or branches of a SELECT, aren't too many.
fn is_short_enough(count: usize) -> bool
    ensures { Tells result (count ≤ 20000) }
{
    count <= MOST_STATEMENTS as usize
}

// Whether a version has all these statements.
fn is_of_version(version: Version, statements: &[OwnedStatement]) -> bool
    ensures { Tells result (IsOfVersion version statements.now) }
{
    match version {
        Version::One => !has_selection(statements),
        Version::Two => true,
    }
}

// Whether a code is in an image's ranges.
fn is_in_range(code: &Code) -> bool
    ensures range { Tells result (IsInRange code.now) }
    ensures widths { result ≡ true → HasWidths code.now }
{
    let tables = &code.tables;
    is_few(tables.variables().len())
        && are_variables(tables.variables())
        && is_few(tables.features().len())
        && are_names(tables.features())
        && is_few(tables.frames().len())
        && are_names(tables.frames())
        && is_short_enough(code.statements.len())
        && all_in_range(code.statements.as_slice())
        && is_of_version(code.version, code.statements.as_slice())
}

/// Whether a code has an image: its version has all its statements, no table is longer than an image's, and all fields are in range, as expressions of 1 to 1,024 items, texts of
/// at most 1,024 bytes and pairs below 32. So it tells whether `write` may be asked for the image, and whether there is one. Takes no memory.
pub fn fits(code: &Code) -> bool
    ensures range { Tells result (IsInRange code.now) }
    ensures spelled { Tells result (FitsImage code.now) }
{
    is_in_range(code)
}
