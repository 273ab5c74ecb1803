//! Places and directions in the fields of statements.

ghost use Rattle.std.specs.Prelude.{◌≡◌, ◌+ℤ◌, ◌*ℤ◌, Some, None, IfOk, if◌then◌else◌};
ghost use Rattle.vcm_lines.specs.Lexemes.{Run};
ghost use Rattle.vcm_expr.specs.Parsing.{expr_of};
ghost use Rattle.vcm_said.specs.Places.{read_in, expression_at, place_at, behind_cart, cartesian, lone_place, place_given, is_part, thousandths, component_behind, is_minus, negative, component_in, component_at, direction_at, are_none, axis_by, axis_of, come_to_one, is_unit, nothing, stepped, incremental, step_at, slanted_by, slant_at, along_axis, behind_plane, plane_at, is_table_word, names_table, is_head_word, names_head};

use std::alloc::Global;
use vcm_events::{Spot, slanted, spotted, unknown_place};
use vcm_expr::{Expr, Piece, Prefix, Term, read_expr};
use vcm_forms::{Coordinates, Form};
use vcm_heads::{Mark, past, past_word};
use vcm_lines::{Cutter, FaultCode, Phrase, Token};
use vcm_num::{Axis, Literal, NoMemory, is};

// The expression that words are.
fn read(alloc: Global, words: &Phrase<'_>) -> Result<Option<Expr>, NoMemory>
    ensures { IfOk result (λ e. e ≡ read_in (expr_of words.now)) }
{
    match read_expr(alloc, 1, words) {
        Ok(value) => Ok(Some(value)),
        Err(fault) => match fault.code {
            FaultCode::NoMemory => Err(NoMemory),
            _ => Ok(None),
        },
    }
}

/// The expression that the first of fields is, and the fields behind it.
pub(crate) fn expression_at<'a>(
    alloc: Global,
    fields: Option<Phrase<'a>>,
) -> Result<Option<(Expr, Option<Phrase<'a>>)>, NoMemory>
    ensures { IfOk result (λ r. r ≡ expression_at fields.entry) }
{
    let Some(words) = fields else {
        return Ok(None);
    };
    let (field, rest) = words.cut_at(Cutter::AtComma);
    match read(alloc, &field)? {
        Some(value) => Ok(Some((value, rest))),
        None => Ok(None),
    }
}

// The place that the first three fields are, and the fields behind it.
fn place_at<'a>(
    alloc: Global,
    fields: Option<Phrase<'a>>,
) -> Result<Option<(Coordinates, Option<Phrase<'a>>)>, NoMemory>
    ensures { IfOk result (λ r. r ≡ place_at fields.entry) }
{
    let Some((x, rest)) = expression_at(alloc, fields)? else {
        return Ok(None);
    };
    let Some((y, rest)) = expression_at(alloc, rest)? else {
        return Ok(None);
    };
    let Some((z, rest)) = expression_at(alloc, rest)? else {
        return Ok(None);
    };
    Ok(Some((Coordinates { x, y, z }, rest)))
}

// The fields behind the word CART.
fn behind_cart<'a>(fields: &Phrase<'a>) -> Option<Phrase<'a>>
    ensures { result ≡ behind_cart fields.now }
{
    let rest = past_word(b"CART", fields)?;
    past(Mark::Comma, &rest)
}

// The fields behind a major word, without the word CART that they may begin with.
fn cartesian<'a>(behind: &Phrase<'a>) -> Option<Phrase<'a>>
    ensures { result ≡ cartesian behind.now }
{
    let fields = past(Mark::Slash, behind)?;
    match behind_cart(&fields) {
        Some(rest) => Some(rest),
        None => Some(fields),
    }
}

/// The place that a statement gives, with no field behind it; else one that isn't known.
pub(crate) fn place_given(alloc: Global, behind: &Phrase<'_>) -> Result<Coordinates, NoMemory>
    ensures { IfOk result (λ p. p ≡ place_given behind.now) }
{
    match place_at(alloc, cartesian(behind))? {
        Some((place, None)) => Ok(place),
        _ => Ok(unknown_place()),
    }
}

// A number from 0 to 1000, where it is one.
fn part(number: i64) -> Option<i32>
    ensures { result ≡ (if is_part number then Some number else None) }
{
    if 0 <= number && number <= 1000 {
        Some(number as i32)
    } else {
        None
    }
}

// A number from 0 to 1 in thousandths.
fn thousandths(literal: Literal) -> Option<i32>
    ensures { result ≡ thousandths literal }
{
    match literal {
        Literal::Int(0) => Some(0),
        Literal::Int(1) => Some(1000),
        Literal::Int(_) => None,
        Literal::Thousandths(number) => part(number),
    }
}

// A number from 0 to 1, below zero, in thousandths.
fn below_zero(literal: Literal) -> Option<i32>
    ensures { result ≡ negative (thousandths literal) }
{
    match literal {
        Literal::Int(0) => Some(0),
        Literal::Int(1) => Some(-1000),
        Literal::Int(_) => None,
        Literal::Thousandths(number) => part_below(number),
    }
}

// A number from 0 to 1000, where it is one, below zero.
fn part_below(number: i64) -> Option<i32>
    ensures { result ≡ negative (if is_part number then Some number else None) }
{
    if 0 <= number && number <= 1000 {
        Some((0 - number) as i32)
    } else {
        None
    }
}

/// Whether parts of an expression are a minus and nothing behind it.
pub(crate) fn is_minus(pieces: &[Piece]) -> bool
    ensures { result ≡ is_minus pieces.now }
{
    match pieces.split_first() {
        Some((Piece::Front(Prefix::Minus), others)) => others.is_empty(),
        _ => false,
    }
}

// A number with these parts behind it.
fn component_behind(literal: Literal, pieces: &[Piece]) -> Option<i32>
    ensures { result ≡ component_behind literal pieces.now }
{
    if pieces.is_empty() {
        return thousandths(literal);
    }
    if is_minus(pieces) {
        below_zero(literal)
    } else {
        None
    }
}

// A component of a direction, in thousandths.
fn component_in(pieces: &[Piece]) -> Option<i32>
    ensures { result ≡ component_in pieces.now }
{
    match pieces.split_first() {
        Some((Piece::Number(literal), others)) => component_behind(*literal, others),
        _ => None,
    }
}

// The component that the first of fields is, and the fields behind it.
fn component_at<'a>(
    alloc: Global,
    fields: Option<Phrase<'a>>,
) -> Result<Option<(i32, Option<Phrase<'a>>)>, NoMemory>
    ensures { IfOk result (λ r. r ≡ component_at fields.entry) }
{
    let Some((value, rest)) = expression_at(alloc, fields)? else {
        return Ok(None);
    };
    match component_in(value.pieces()) {
        Some(number) => Ok(Some((number, rest))),
        None => Ok(None),
    }
}

/// The direction that three fields are, the last ones.
pub(crate) fn direction_at(
    alloc: Global,
    fields: Option<Phrase<'_>>,
) -> Result<Option<(i32, i32, i32)>, NoMemory>
    ensures { IfOk result (λ r. r ≡ direction_at fields.entry) }
{
    let Some((i, rest)) = component_at(alloc, fields)? else {
        return Ok(None);
    };
    let Some((j, rest)) = component_at(alloc, rest)? else {
        return Ok(None);
    };
    match component_at(alloc, rest)? {
        Some((k, None)) => Ok(Some((i, j, k))),
        _ => Ok(None),
    }
}

// The axis with this component alone.
fn axis_by(plus: Axis, minus: Axis, number: i32) -> Option<Axis>
    ensures { result ≡ axis_by plus minus number }
{
    if number == 1000 {
        Some(plus)
    } else if number == -1000 {
        Some(minus)
    } else {
        None
    }
}

// Whether two components are 0.
fn are_none(a: i32, b: i32) -> bool
    ensures { result ≡ are_none a b }
{
    a == 0 && b == 0
}

/// The axis that a direction goes along.
pub(crate) fn axis_of(direction: (i32, i32, i32)) -> Option<Axis>
    ensures { result ≡ axis_of direction }
{
    let (i, j, k) = direction;
    if are_none(j, k) {
        axis_by(Axis::PlusX, Axis::MinusX, i)
    } else if are_none(i, k) {
        axis_by(Axis::PlusY, Axis::MinusY, j)
    } else if are_none(i, j) {
        axis_by(Axis::PlusZ, Axis::MinusZ, k)
    } else {
        None
    }
}

// Nothing along an axis.
fn nothing() -> Expr
    ensures { result ≡ nothing }
{
    Expr::leaf(Term::Number(Literal::Int(0)))
}

// A step of a length along an axis.
fn stepped(length: Expr, axis: Axis) -> Form
    ensures { result ≡ stepped length axis }
{
    match axis {
        Axis::PlusX => spotted(Spot::Step, along_x(length)),
        Axis::MinusX => spotted(Spot::Back, along_x(length)),
        Axis::PlusY => spotted(Spot::Step, along_y(length)),
        Axis::MinusY => spotted(Spot::Back, along_y(length)),
        Axis::PlusZ => spotted(Spot::Step, along_z(length)),
        Axis::MinusZ => spotted(Spot::Back, along_z(length)),
    }
}

// A length along X.
fn along_x(length: Expr) -> Coordinates
    ensures { result ≡ record { x = length; y = nothing; z = nothing } }
{
    Coordinates {
        x: length,
        y: nothing(),
        z: nothing(),
    }
}

// A length along Y.
fn along_y(length: Expr) -> Coordinates
    ensures { result ≡ record { x = nothing; y = length; z = nothing } }
{
    Coordinates {
        x: nothing(),
        y: length,
        z: nothing(),
    }
}

// A length along Z.
fn along_z(length: Expr) -> Coordinates
    ensures { result ≡ record { x = nothing; y = nothing; z = length } }
{
    Coordinates {
        x: nothing(),
        y: nothing(),
        z: length,
    }
}

// The fields behind the word INCR.
fn incremental<'a>(behind: &Phrase<'a>) -> Option<Phrase<'a>>
    ensures { result ≡ incremental behind.now }
{
    let fields = past(Mark::Slash, behind)?;
    let rest = past_word(b"INCR", &fields)?;
    past(Mark::Comma, &rest)
}

/// The step of GOTO/INCR, where that goes along an axis.
pub(crate) fn step_at(alloc: Global, behind: &Phrase<'_>) -> Result<Option<Form>, NoMemory>
    ensures { IfOk result (λ f. f ≡ step_at behind.now) }
{
    let Some(fields) = incremental(behind) else {
        return Ok(None);
    };
    let Some((length, rest)) = expression_at(alloc, Some(fields))? else {
        return Ok(None);
    };
    let Some(direction) = direction_at(alloc, rest)? else {
        return Ok(None);
    };
    match axis_of(direction) {
        Some(axis) => Ok(Some(stepped(length, axis))),
        None => Ok(None),
    }
}

// The sum of three numbers.
fn sum(a: i64, b: i64, c: i64) -> i128
    ensures { result ≡ (a +ℤ b) +ℤ c }
{
    i128::from(a) + i128::from(b) + i128::from(c)
}

// Whether squares come to 1, as far as thousandths tell.
fn come_to_one(a: i64, b: i64, c: i64) -> bool
    ensures { result ≡ come_to_one a b c }
{
    let sum = sum(a, b, c);
    998_000 <= sum && sum <= 1_002_000
}

// The square of a component.
fn square(number: i32) -> i64
    ensures { result ≡ number *ℤ number }
{
    i64::from(number) * i64::from(number)
}

// Whether a direction has the length 1.
fn is_unit(direction: (i32, i32, i32)) -> bool
    ensures { result ≡ is_unit direction }
{
    let (i, j, k) = direction;
    come_to_one(square(i), square(j), square(k))
}

/// The slanted point of PTMEAS, where its direction has the length 1.
pub(crate) fn slant_at(alloc: Global, behind: &Phrase<'_>) -> Result<Option<Form>, NoMemory>
    ensures { IfOk result (λ f. f ≡ slant_at behind.now) }
{
    let Some((place, rest)) = place_at(alloc, cartesian(behind))? else {
        return Ok(None);
    };
    match direction_at(alloc, rest)? {
        Some(direction) if is_unit(direction) => Ok(Some(slanted(alloc, place, direction)?)),
        _ => Ok(None),
    }
}

// The fields behind the word PLANE, without the word CART that they may begin with.
fn behind_plane<'a>(behind: &Phrase<'a>) -> Option<Phrase<'a>>
    ensures { result ≡ behind_plane behind.now }
{
    let fields = past(Mark::Slash, behind)?;
    let rest = past_word(b"PLANE", &fields)?;
    let place = past(Mark::Comma, &rest)?;
    match behind_cart(&place) {
        Some(rest) => Some(rest),
        None => Some(place),
    }
}

/// The place and the axis of a plane that goes along one: of `FEAT/PLANE,CART,x,y,z,i,j,k`.
pub(crate) fn plane_at(
    alloc: Global,
    behind: &Phrase<'_>,
) -> Result<Option<(Coordinates, Axis)>, NoMemory>
    ensures { IfOk result (λ p. p ≡ plane_at behind.now) }
{
    let Some((place, rest)) = place_at(alloc, behind_plane(behind))? else {
        return Ok(None);
    };
    let Some(direction) = direction_at(alloc, rest)? else {
        return Ok(None);
    };
    match axis_of(direction) {
        Some(axis) => Ok(Some((place, axis))),
        None => Ok(None),
    }
}

// Whether a word speaks of a rotary table.
fn is_table_word(word: &[u8]) -> bool
    ensures { result ≡ is_table_word (Run word.now) }
{
    is(word, b"ROTAB") || is(word, b"RT")
}

/// Whether one of the words speaks of a rotary table.
pub(crate) fn names_table(words: &Phrase<'_>) -> bool
    ensures { result ≡ names_table words.now }
{
    match words.split_first() {
        None => false,
        Some((Token::Run(word), rest)) => is_table_word(word) || names_table(&rest),
        Some((_, rest)) => names_table(&rest),
    }
}

// Whether a word speaks of a head that turns, or of another sensor.
fn is_head_word(word: &[u8]) -> bool
    ensures { result ≡ is_head_word (Run word.now) }
{
    is(word, b"HEAD")
        || is(word, b"HEADCS")
        || is(word, b"PCS")
        || is(word, b"PROBEL")
        || is(word, b"ANGLE")
        || is(word, b"W")
        || is(word, b"S")
        || is(word, b"SA")
}

/// Whether one of the words speaks of a head that turns, or of another sensor.
pub(crate) fn names_head(words: &Phrase<'_>) -> bool
    ensures { result ≡ names_head words.now }
{
    match words.split_first() {
        None => false,
        Some((Token::Run(word), rest)) => is_head_word(word) || names_head(&rest),
        Some((_, rest)) => names_head(&rest),
    }
}
