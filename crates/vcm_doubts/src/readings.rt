//! What of a text hangs on how a machine counts, and on which variables its macros see.

ghost use Rattle.std.specs.Prelude.{◌≡◌, ◌++◌, [], nat_eq, not, false, IfOk, OnOk, if◌then◌else◌, ◌||◌};
ghost use Rattle.std.specs.List.{list_any, filter};
ghost use Rattle.std.specs.Option.{option_copied};
ghost use Rattle.vcm_expr.specs.Source.{parts};
ghost use Rattle.vcm_doubts.specs.Doubts.{is_among, sets, declared_by, sharing_lines};
ghost use Rattle.vcm_doubts.specs.Readings.{is_named, has_named, has_named_if, place_has_named, form_has_named, is_rounded, may_be_rounded, with_name, decimal_of, with_found, decimals_behind, decimals_from, decimals_in, is_sum, is_reckoned, sums_behind, sums_from, sums_in, is_relation, value_compares, compares, compared_from, compared_lines, declared_outside, without, lent_behind, borrows, borrowed_from, borrowed_lines};

use crate::names::{
    add_declared, add_parameters, add_set, is_among, is_line, is_open_behind, sharing_lines,
};
use std::alloc::Global;
use vcm_expr::{BinaryOp, Expr, Piece};
use vcm_forms::{Argument, Coordinates, Form, Offset, Statement};
use vcm_items::Name;
use vcm_lines::Logical;
use vcm_num::{Items, Literal, NoMemory};

// Whether a part of an expression is a variable among these.
fn is_named(names: &[Name], piece: &Piece) -> bool
    ensures { result ≡ is_named names.now piece.now }
{
    match piece {
        Piece::Variable(name, _) => is_among(names, name.as_bytes()),
        _ => false,
    }
}

// Whether one of the parts is.
fn is_one_named(names: &[Name], pieces: &[Piece]) -> bool
    ensures { result ≡ list_any (is_named names.now) pieces.now }
{
    pieces.iter().any(|piece| is_named(names, piece))
}

// Whether an expression has one.
fn has_named(names: &[Name], value: &Expr) -> bool
    ensures { result ≡ has_named names.now value.now }
{
    is_one_named(names, value.pieces())
}

// Whether one that may be missing has.
fn has_named_if(names: &[Name], value: &Option<Expr>) -> bool
    ensures { result ≡ has_named_if names.now value.now }
{
    match value {
        Some(value) => has_named(names, value),
        None => false,
    }
}

// Whether a place has.
fn place_has_named(names: &[Name], place: &Coordinates) -> bool
    ensures { result ≡ place_has_named names.now place.now }
{
    has_named(names, &place.x) || has_named(names, &place.y) || has_named(names, &place.z)
}

// Whether a shift has.
fn offset_has_named(names: &[Name], offset: &Offset) -> bool
    ensures { result ≡ has_named names.now offset.now.length }
{
    has_named(names, &offset.length)
}

// Whether one of the shifts has.
fn shift_has_named(names: &[Name], offsets: &[Offset]) -> bool
    ensures { result ≡ list_any (λ o. has_named names.now o.length) offsets.now }
{
    offsets.iter().any(|offset| offset_has_named(names, offset))
}

// Whether an argument has.
fn argument_has_named(names: &[Name], argument: &Argument) -> bool
    ensures { result ≡ has_named_if names.now argument.now.value }
{
    has_named_if(names, &argument.value)
}

// Whether one of the arguments has.
fn call_has_named(names: &[Name], arguments: &[Argument]) -> bool
    ensures { result ≡ list_any (λ a. has_named_if names.now a.value) arguments.now }
{
    arguments
        .iter()
        .any(|argument| argument_has_named(names, argument))
}

// Whether a statement has, in one of its expressions.
fn form_has_named(names: &[Name], form: &Form) -> bool
    ensures { result ≡ form_has_named names.now form.now }
{
    match form {
        Form::Assignment(_, value) => has_named(names, value),
        Form::Test(value) => has_named(names, value),
        Form::Choose(value) => has_named(names, value),
        Form::Repeat(rounds) => {
            has_named(names, &rounds.initial)
                || has_named(names, &rounds.limit)
                || has_named_if(names, &rounds.increment)
        }
        Form::Move(place) => place_has_named(names, place),
        Form::Feature(_, place, _) => place_has_named(names, place),
        Form::Touch(place, _) => place_has_named(names, place),
        Form::Configure(_, value) => has_named(names, value),
        Form::Shift(_, offsets) => shift_has_named(names, offsets.as_slice()),
        Form::Call(_, arguments) => call_has_named(names, arguments.as_slice()),
        _ => false,
    }
}

// Whether a part is a decimal that machines that count in binary digits round.
fn is_rounded(piece: &Piece) -> bool
    ensures { result ≡ is_rounded piece.now }
{
    match piece {
        Piece::Number(Literal::Thousandths(number)) => *number % 125 != 0,
        _ => false,
    }
}

// Whether one of the parts is.
fn is_one_rounded(pieces: &[Piece]) -> bool
    ensures { result ≡ list_any is_rounded pieces.now }
{
    pieces.iter().any(|piece| is_rounded(piece))
}

// Whether a value may be such a decimal.
fn may_be_rounded(names: &[Name], value: &Expr) -> bool
    ensures { result ≡ may_be_rounded names.now value.now }
{
    is_one_rounded(value.pieces()) || has_named(names, value)
}

// A name more, if it isn't there.
fn add_name(names: &mut Items<Name>, name: &Name) -> Result<(), NoMemory>
    ensures { OnOk result (names.new ≡ with_name names.old name.now) }
{
    if !is_among(names.as_slice(), name.as_bytes()) {
        names.push(name.copy())?;
    }
    Ok(())
}

// The variable that gets such a decimal, if one does.
fn decimal_of<'a>(names: &[Name], form: &'a Form) -> Option<&'a Name>
    ensures { option_copied result ≡ decimal_of names.now form.now }
{
    match form {
        Form::Assignment(target, value) => {
            if may_be_rounded(names, value) {
                Some(&target.name)
            } else {
                None
            }
        }
        _ => None,
    }
}

// A name more, if there is one.
fn add_found(names: &mut Items<Name>, found: Option<&Name>) -> Result<(), NoMemory>
    ensures { OnOk result (names.new ≡ with_found names.old (option_copied found.entry)) }
{
    match found {
        Some(name) => add_name(names, name),
        None => Ok(()),
    }
}

// The variables that may be such decimals, behind a statement.
fn add_decimal(names: &mut Items<Name>, form: &Form) -> Result<(), NoMemory>
    ensures { OnOk result (names.new ≡ decimals_behind names.old form.now) }
{
    let found = decimal_of(names.as_slice(), form);
    add_found(names, found)
}

// And behind statements.
fn add_decimals(names: &mut Items<Name>, statements: &[Statement]) -> Result<(), NoMemory>
    ensures { OnOk result (names.new ≡ decimals_from names.old statements.now) }
{
    for statement in statements {
        add_decimal(names, &statement.form)?;
    }
    Ok(())
}

// Those of a text.
fn decimals_in(alloc: Global, statements: &[Statement]) -> Result<Items<Name>, NoMemory>
    ensures { IfOk result (λ names. names ≡ decimals_in statements.now) }
{
    let mut names = Items::new(alloc);
    add_decimals(&mut names, statements)?;
    add_decimals(&mut names, statements)?;
    Ok(names)
}

// Whether a part is a sum, a difference or a product.
fn is_sum(piece: &Piece) -> bool
    ensures { result ≡ is_sum piece.now }
{
    matches!(
        piece,
        Piece::Between(BinaryOp::Add | BinaryOp::Sub | BinaryOp::Mul)
    )
}

// Whether one of the parts is.
fn is_one_sum(pieces: &[Piece]) -> bool
    ensures { result ≡ list_any is_sum pieces.now }
{
    pieces.iter().any(|piece| is_sum(piece))
}

// Whether a value is reckoned of such decimals.
fn is_reckoned(decimals: &[Name], value: &Expr) -> bool
    ensures { result ≡ is_reckoned decimals.now value.now }
{
    is_one_sum(value.pieces()) && may_be_rounded(decimals, value)
}

// The variables with such a value behind a statement.
fn add_sum(decimals: &[Name], names: &mut Items<Name>, form: &Form) -> Result<(), NoMemory>
    ensures { OnOk result (names.new ≡ sums_behind decimals.now names.old form.now) }
{
    match form {
        Form::Assignment(target, value) => {
            if is_reckoned(decimals, value) {
                add_name(names, &target.name)?;
            }
            Ok(())
        }
        _ => Ok(()),
    }
}

// The variables with such a value behind statements.
fn add_sums(
    decimals: &[Name],
    names: &mut Items<Name>,
    statements: &[Statement],
) -> Result<(), NoMemory>
    ensures { OnOk result (names.new ≡ sums_from decimals.now names.old statements.now) }
{
    for statement in statements {
        add_sum(decimals, names, &statement.form)?;
    }
    Ok(())
}

// The variables of a text that are reckoned of decimals.
fn sums_in(alloc: Global, statements: &[Statement]) -> Result<Items<Name>, NoMemory>
    ensures { IfOk result (λ names. names ≡ sums_in statements.now) }
{
    let decimals = decimals_in(alloc, statements)?;
    let mut names = Items::new(alloc);
    add_sums(decimals.as_slice(), &mut names, statements)?;
    Ok(names)
}

// Whether a part is a relation.
fn is_relation(piece: &Piece) -> bool
    ensures { result ≡ is_relation piece.now }
{
    matches!(piece, Piece::Between(BinaryOp::Compare(_)))
}

// Whether one of the parts is.
fn is_one_relation(pieces: &[Piece]) -> bool
    ensures { result ≡ list_any is_relation pieces.now }
{
    pieces.iter().any(|piece| is_relation(piece))
}

// Whether a value compares one of these variables.
fn value_compares(names: &[Name], value: &Expr) -> bool
    ensures { result ≡ value_compares names.now value.now }
{
    is_one_relation(value.pieces()) && has_named(names, value)
}

// Whether a statement does.
fn compares(names: &[Name], form: &Form) -> bool
    ensures { result ≡ compares names.now form.now }
{
    match form {
        Form::Assignment(_, value) => value_compares(names, value),
        Form::Test(value) => value_compares(names, value),
        _ => false,
    }
}

// The lines that compare one of these variables.
fn compared_of(
    alloc: Global,
    names: &[Name],
    statements: &[Statement],
) -> Result<Items<u32>, NoMemory>
    ensures { IfOk result (λ lines. lines ≡ compared_from names.now 0 statements.now) }
{
    let mut lines = Items::new(alloc);
    let mut last = 0;
    for statement in statements {
        if compares(names, &statement.form) {
            if statement.line != last {
                lines.push(statement.line)?;
            }
            last = statement.line;
        }
    }
    Ok(lines)
}

/// The lines of a text that compare what is reckoned of decimals, in order: it is compared as an exact decimal, where a machine may have a little more or less.
///
/// # Errors
///
/// Out of memory.
pub fn compared_lines(alloc: Global, statements: &[Statement]) -> Result<Items<u32>, NoMemory>
    ensures { IfOk result (λ lines. lines ≡ compared_lines statements.now) }
{
    let names = sums_in(alloc, statements)?;
    compared_of(alloc, names.as_slice(), statements)
}

// The variables that a text declares outside of macros, but on these lines.
fn declared_outside(
    alloc: Global,
    lines: &[u32],
    statements: &[Statement],
) -> Result<Items<Name>, NoMemory>
    ensures { IfOk result (λ names. names ≡ declared_outside lines.now false statements.now) }
{
    let mut names = Items::new(alloc);
    let mut opened = false;
    for statement in statements {
        if !(opened || is_line(lines, statement.line)) {
            add_declared(&mut names, &statement.form)?;
        }
        opened = is_open_behind(opened, &statement.form);
    }
    Ok(names)
}

// The variables that aren't among others.
fn without(alloc: Global, names: &[Name], others: &[Name]) -> Result<Items<Name>, NoMemory>
    ensures { IfOk result (λ left. left ≡ without names.now others.now) }
{
    let mut left = Items::new(alloc);
    for name in names {
        if !is_among(others, name.as_bytes()) {
            left.push(name.copy())?;
        }
    }
    Ok(left)
}

// Those of the main program that are its own in the macro that is open behind a statement.
fn lent_behind(
    alloc: Global,
    main: &[Name],
    lent: Items<Name>,
    form: &Form,
) -> Result<Items<Name>, NoMemory>
    ensures { IfOk result (λ names. names ≡ lent_behind main.now lent form.now) }
{
    match form {
        Form::Macro(_, parameters) => {
            let mut own = Items::new(alloc);
            add_parameters(&mut own, parameters.as_slice())?;
            without(alloc, main, own.as_slice())
        }
        Form::MacroEnd => Ok(Items::new(alloc)),
        Form::Declaration(_, _) => {
            let mut own = Items::new(alloc);
            add_declared(&mut own, form)?;
            without(alloc, lent.as_slice(), own.as_slice())
        }
        _ => Ok(lent),
    }
}

// Whether one of these is among others.
fn has_among(others: &[Name], names: &[Name]) -> bool
    ensures { result ≡ list_any (is_among others.now) names.now }
{
    names.iter().any(|name| is_among(others, name.as_bytes()))
}

// Whether a statement uses or sets one of them.
fn borrows(alloc: Global, lent: &[Name], form: &Form) -> Result<bool, NoMemory>
    ensures { IfOk result (λ b. b ≡ borrows lent.now form.now) }
{
    if form_has_named(lent, form) {
        return Ok(true);
    }
    let mut set = Items::new(alloc);
    add_set(&mut set, form)?;
    Ok(has_among(lent, set.as_slice()))
}

// The lines within macros that use these variables of the main program.
fn borrowed_of(
    alloc: Global,
    main: &[Name],
    statements: &[Statement],
) -> Result<Items<u32>, NoMemory>
    ensures { IfOk result (λ lines. lines ≡ borrowed_from main.now [] 0 statements.now) }
{
    let mut lines = Items::new(alloc);
    let mut lent = Items::new(alloc);
    let mut last = 0;
    for statement in statements {
        if borrows(alloc, lent.as_slice(), &statement.form)? {
            if statement.line != last {
                lines.push(statement.line)?;
            }
            last = statement.line;
        }
        lent = lent_behind(alloc, main, lent, &statement.form)?;
    }
    Ok(lines)
}

/// The lines within macros that use variables of the main program which no DECL/GLOBAL or DECL/COMMON shares, in order: some machines don't see these there.
///
/// # Errors
///
/// Out of memory.
pub fn borrowed_lines(
    alloc: Global,
    lines: &[Logical],
    statements: &[Statement],
) -> Result<Items<u32>, NoMemory>
    ensures { IfOk result (λ ns. ns ≡ borrowed_lines lines.now statements.now) }
{
    let numbers = sharing_lines(alloc, lines)?;
    let main = declared_outside(alloc, numbers.as_slice(), statements)?;
    borrowed_of(alloc, main.as_slice(), statements)
}
