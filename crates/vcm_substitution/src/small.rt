//! Expressions that were read or made are small enough, and so are all of a statement. Nothing is done here: contracts say what the types keep.

ghost use Rattle.std.specs.Prelude.{◌≡◌, true};
ghost use Rattle.vcm_expr.specs.Source.{is_small};
ghost use Rattle.vcm_substitution.specs.Sizes.{is_small_option, is_small_spot, are_small_rounds, are_small_offsets, are_small};

use vcm_expr::Expr;
use vcm_forms::{Coordinates, Form, Offset, Rounds};

// An expression.
fn expression(e: &Expr)
    ensures { is_small e.now ≡ true }
{
    let _ = e.pieces();
}

// An expression, where there is one.
fn option(e: &Option<Expr>)
    ensures { is_small_option e.now ≡ true }
{
    match e {
        None => (),
        Some(e) => expression(e),
    }
}

// The coordinates of a place.
fn spot(place: &Coordinates)
    ensures { is_small_spot place.now ≡ true }
{
    expression(&place.x);
    expression(&place.y);
    expression(&place.z);
}

// What the words of DO say.
fn rounds(rounds: &Rounds)
    ensures { are_small_rounds rounds.now ≡ true }
{
    expression(&rounds.initial);
    expression(&rounds.limit);
    option(&rounds.increment);
}

// The shifts of a frame.
fn offsets(offsets: &[Offset])
    ensures { are_small_offsets offsets.now ≡ true }
{
    for offset in offsets {
        expression(&offset.length);
    }
}

/// All expressions of a statement are small enough.
pub fn are_small(form: &Form)
    ensures { are_small form.now ≡ true }
{
    match form {
        Form::Assignment(_, value) => expression(value),
        Form::Move(place) => spot(place),
        Form::Test(value) => expression(value),
        Form::Choose(value) => expression(value),
        Form::Repeat(words) => rounds(words),
        Form::Feature(_, place, _) => spot(place),
        Form::Touch(place, _) => spot(place),
        Form::Configure(_, value) => expression(value),
        Form::Shift(_, lengths) => offsets(lengths.as_slice()),
        _ => (),
    }
}
