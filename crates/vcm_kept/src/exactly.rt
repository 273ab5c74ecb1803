//! Statements with their expressions as exact fractions of what they are made of, and the texts whose values may lie beside the machine's.

ghost use Rattle.std.specs.Prelude.{◌≡◌, map, Some, None, IfOk, true, List};
ghost use Rattle.std.specs.List.{list_all, list_any};
ghost use Rattle.vcm_expr.specs.Source.{parts};
ghost use Rattle.vcm_events.specs.Spots.{spot_named};
ghost use Rattle.vcm_templates.specs.Exact.{exact_at, is_quotient, kind_in};
ghost use Rattle.vcm_kept.specs.Exactly.{is_product, is_pointed, may_be_cut, is_cut_place, is_cut_increment, is_cut_shift, is_cut, is_cut_placed, want_of, want_by, want_at, exact_length, exact_place, is_real, is_steady, steady, exact_step, exact_steps, exact_spot, exact_shift, exact_increment, exact_rounds, exact_form};

use std::alloc::Global;
use vcm_events::{Spot, is_origin, unknown};
use vcm_expr::{BinaryOp, Expr, Names, Piece, Want};
use vcm_forms::{Coordinates, Form, Offset, Rounds, Statement, Target};
use vcm_macro::Placed;
use vcm_num::{Items, Kind, Literal, NoMemory};
use vcm_templates::{carries_bounds, exact_at, is_quotient};

// Whether a part is a product.
fn is_product(piece: &Piece) -> bool
    ensures { result ≡ is_product piece.now }
{
    matches!(piece, Piece::Between(BinaryOp::Mul))
}

// Whether a part is a number with a point.
fn is_pointed(piece: &Piece) -> bool
    ensures { result ≡ is_pointed piece.now }
{
    matches!(piece, Piece::Number(Literal::Thousandths(_)))
}

// Whether one of the parts is a quotient.
fn has_quotient(pieces: &[Piece]) -> bool
    ensures { result ≡ list_any is_quotient pieces.now }
{
    pieces.iter().any(|piece| is_quotient(piece))
}

// Whether one of them is a product.
fn has_product(pieces: &[Piece]) -> bool
    ensures { result ≡ list_any is_product pieces.now }
{
    pieces.iter().any(|piece| is_product(piece))
}

// Whether one of them is a number with a point.
fn has_pointed(pieces: &[Piece]) -> bool
    ensures { result ≡ list_any is_pointed pieces.now }
{
    pieces.iter().any(|piece| is_pointed(piece))
}

// Whether the value of an expression may be cut off.
fn may_be_cut(value: &Expr) -> bool
    ensures { result ≡ may_be_cut value.now }
{
    let pieces = value.pieces();
    has_quotient(pieces) || (has_product(pieces) && has_pointed(pieces))
}

// Whether one of a place's lengths may be.
fn is_cut_place(place: &Coordinates) -> bool
    ensures { result ≡ is_cut_place place.now }
{
    may_be_cut(&place.x) || may_be_cut(&place.y) || may_be_cut(&place.z)
}

// Whether an increment may be, if there is one.
fn is_cut_increment(increment: &Option<Expr>) -> bool
    ensures { result ≡ is_cut_increment increment.now }
{
    match increment {
        Some(value) => may_be_cut(value),
        None => false,
    }
}

// Whether a length of a shift may be.
fn is_cut_shift(offset: &Offset) -> bool
    ensures { result ≡ is_cut_shift offset.now }
{
    may_be_cut(&offset.length)
}

// Whether one of the shifts' may be.
fn has_cut_shift(offsets: &[Offset]) -> bool
    ensures { result ≡ list_any is_cut_shift offsets.now }
{
    offsets.iter().any(|offset| is_cut_shift(offset))
}

// Whether an expression of a statement may be.
fn is_cut(form: &Form) -> bool
    ensures { result ≡ is_cut form.now }
{
    match form {
        Form::Assignment(_, value) => may_be_cut(value),
        Form::Move(place) => is_cut_place(place),
        Form::Test(value) => may_be_cut(value),
        Form::Choose(value) => may_be_cut(value),
        Form::Repeat(rounds) => {
            may_be_cut(&rounds.initial)
                || may_be_cut(&rounds.limit)
                || is_cut_increment(&rounds.increment)
        }
        Form::Feature(_, place, _) => is_cut_place(place),
        Form::Touch(place, _) => is_cut_place(place),
        Form::Configure(_, value) => may_be_cut(value),
        Form::Shift(_, offsets) => has_cut_shift(offsets.as_slice()),
        _ => false,
    }
}

// The same of a statement.
fn is_cut_statement(statement: &Statement) -> bool
    ensures { result ≡ is_cut statement.now.form }
{
    is_cut(&statement.form)
}

/// Whether one of the statements has an expression whose value may be cut off.
pub fn may_cut(all: &[Statement]) -> bool
    ensures { result ≡ list_any (λ s. is_cut s.form) all.now }
{
    all.iter().any(|statement| is_cut_statement(statement))
}

// Whether one of a statement in its expansion may be.
fn is_cut_placed(placed: &Placed) -> bool
    ensures { result ≡ is_cut_placed placed.now }
{
    is_cut(&placed.statement.form)
}

/// Whether one of the statements has an expression whose value may be cut off.
pub(crate) fn has_cut(all: &[Placed]) -> bool
    ensures { result ≡ list_any is_cut_placed all.now }
{
    all.iter().any(|placed| is_cut_placed(placed))
}

/// What a value of this kind is wanted as.
pub(crate) fn want_of(kind: Kind) -> Want
    ensures { result ≡ want_of kind }
{
    match kind {
        Kind::Int => Want::Int,
        Kind::Real => Want::Length,
        Kind::Bool => Want::Bool,
    }
}

// What the value of an assignment is wanted as.
fn want_at(names: &Names, target: &Target) -> Want
    ensures { result ≡ want_at names.now target.now }
{
    match names.find(target.expansion, &target.name) {
        Some((_, kind)) => want_of(kind),
        None => Want::Int,
    }
}

// A length.
fn exact_length(alloc: Global, names: &Names, value: Expr) -> Result<Expr, NoMemory>
    ensures { IfOk result (λ e. e ≡ exact_length names.now value) }
{
    exact_at(alloc, names, Want::Length, value)
}

// A place.
fn exact_place(alloc: Global, names: &Names, place: Coordinates) -> Result<Coordinates, NoMemory>
    ensures { IfOk result (λ p. p ≡ exact_place names.now place) }
{
    let Coordinates { x, y, z } = place;
    let x = exact_length(alloc, names, x)?;
    let y = exact_length(alloc, names, y)?;
    let z = exact_length(alloc, names, z)?;
    Ok(Coordinates { x, y, z })
}

// Whether a part has the machine's value whatever its variables have.
fn is_steady(names: &Names, piece: &Piece) -> bool
    ensures { result ≡ is_steady names.now piece.now }
{
    match piece {
        Piece::Variable(name, expansion) => match names.find(*expansion, name) {
            Some((_, Kind::Real)) => false,
            _ => true,
        },
        piece => !is_quotient(piece),
    }
}

// Whether all parts have.
fn are_steady(names: &Names, pieces: &[Piece]) -> bool
    ensures { result ≡ list_all (is_steady names.now) pieces.now }
{
    match pieces {
        [] => true,
        [first, rest @ ..] => is_steady(names, first) && are_steady(names, rest),
    }
}

// A length of a step.
fn exact_step(alloc: Global, names: &Names, value: Expr) -> Result<Expr, NoMemory>
    ensures { IfOk result (λ e. e ≡ exact_step names.now value) }
{
    let length = exact_length(alloc, names, value)?;
    if !carries_bounds(names) || are_steady(names, length.pieces()) {
        Ok(length)
    } else {
        Ok(unknown())
    }
}

// The lengths of a step.
fn exact_steps(alloc: Global, names: &Names, place: Coordinates) -> Result<Coordinates, NoMemory>
    ensures { IfOk result (λ p. p ≡ exact_steps names.now place) }
{
    let Coordinates { x, y, z } = place;
    let x = exact_step(alloc, names, x)?;
    let y = exact_step(alloc, names, y)?;
    let z = exact_step(alloc, names, z)?;
    Ok(Coordinates { x, y, z })
}

// A place of a feature, or one that is none to go to at once.
fn exact_spot(
    alloc: Global,
    names: &Names,
    place: Coordinates,
    spot: Option<Spot>,
) -> Result<Coordinates, NoMemory>
    ensures { IfOk result (λ p. p ≡ exact_spot names.now place spot) }
{
    match spot {
        Some(Spot::Step) => exact_steps(alloc, names, place),
        Some(Spot::Back) => exact_steps(alloc, names, place),
        _ => exact_place(alloc, names, place),
    }
}

// A shift.
fn exact_shift(alloc: Global, names: &Names, offset: &Offset) -> Result<Offset, NoMemory>
    ensures { IfOk result (λ o. o ≡ exact_shift names.now offset.now) }
{
    let Ok(length) = offset.length.copy(alloc) else {
        return Err(NoMemory);
    };
    if is_origin(&length) {
        return Ok(Offset {
            axis: offset.axis,
            length,
        });
    }
    let length = exact_length(alloc, names, length)?;
    Ok(Offset {
        axis: offset.axis,
        length,
    })
}

// Shifts.
fn exact_shifts(alloc: Global, names: &Names, offsets: &[Offset]) -> Result<Items<Offset>, NoMemory>
    ensures { IfOk result (λ os. os ≡ map (exact_shift names.now) offsets.now) }
{
    let mut exact = Items::new(alloc);
    for offset in offsets {
        exact.push(exact_shift(alloc, names, offset)?)?;
    }
    Ok(exact)
}

// An increment, if there is one.
fn exact_increment(
    alloc: Global,
    names: &Names,
    increment: Option<Expr>,
) -> Result<Option<Expr>, NoMemory>
    ensures { IfOk result (λ e. e ≡ exact_increment names.now increment) }
{
    match increment {
        Some(value) => Ok(Some(exact_at(alloc, names, Want::Int, value)?)),
        None => Ok(None),
    }
}

// Rounds.
fn exact_rounds(alloc: Global, names: &Names, rounds: Rounds) -> Result<Rounds, NoMemory>
    ensures { IfOk result (λ r. r ≡ exact_rounds names.now rounds) }
{
    let Rounds {
        variable,
        initial,
        limit,
        increment,
    } = rounds;
    let initial = exact_at(alloc, names, Want::Int, initial)?;
    let limit = exact_at(alloc, names, Want::Int, limit)?;
    let increment = exact_increment(alloc, names, increment)?;
    Ok(Rounds {
        variable,
        initial,
        limit,
        increment,
    })
}

/// A statement with its expressions as exact fractions of what they are made of.
pub(crate) fn exact_form(alloc: Global, names: &Names, form: Form) -> Result<Form, NoMemory>
    ensures { IfOk result (λ f. f ≡ exact_form names.now form) }
{
    match form {
        Form::Assignment(target, value) => {
            let want = want_at(names, &target);
            let value = exact_at(alloc, names, want, value)?;
            Ok(Form::Assignment(target, value))
        }
        Form::Move(place) => Ok(Form::Move(exact_place(alloc, names, place)?)),
        Form::Test(value) => Ok(Form::Test(exact_at(alloc, names, Want::Bool, value)?)),
        Form::Choose(value) => Ok(Form::Choose(exact_at(alloc, names, Want::Int, value)?)),
        Form::Repeat(rounds) => Ok(Form::Repeat(exact_rounds(alloc, names, rounds)?)),
        Form::Feature(label, place, axis) => {
            let spot = Spot::named(label.as_bytes());
            let place = exact_spot(alloc, names, place, spot)?;
            Ok(Form::Feature(label, place, axis))
        }
        Form::Touch(place, given) => Ok(Form::Touch(exact_place(alloc, names, place)?, given)),
        Form::Configure(which, value) => {
            let value = exact_length(alloc, names, value)?;
            Ok(Form::Configure(which, value))
        }
        Form::Shift(label, offsets) => {
            let offsets = exact_shifts(alloc, names, offsets.as_slice())?;
            Ok(Form::Shift(label, offsets))
        }
        form => Ok(form),
    }
}
