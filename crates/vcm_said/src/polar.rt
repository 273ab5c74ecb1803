//! Polar places: a radius, an angle and a height.

ghost use Rattle.std.specs.Prelude.{◌≡◌, ◌≤◌, ◌<◌, pos, IfOk, IfSome};
ghost use Rattle.vcm_events.specs.Joined.{length_of};
ghost use Rattle.vcm_lines.specs.Lexemes.{lexeme};
ghost use Rattle.vcm_said.specs.Polar.{along_quarter, along, across, radius_of, radius_in, signed_angle, word_millionths, angle_of, lone_millionths, angle_in, angle_at, polar_at, behind_polar, moved_to, polar_motion, touched_along, touched_toward, touched_at, polar_touch};

use crate::places::{axis_of, direction_at, expression_at};
use std::alloc::Global;
use vcm_events::length;
use vcm_expr::{Expr, Piece};
use vcm_forms::{Coordinates, Form};
use vcm_functions::{cosine, part_of};
use vcm_heads::{Mark, past, past_word};
use vcm_lines::{Cutter, Phrase, Token};
use vcm_num::{Axis, Literal, NoMemory};
use vcm_plain::millionths_of;

// ---- places

// The coordinate of a radius in the direction from which angles count, by the quarter of the turn and the angle in it.
fn along_quarter(radius: u32, quarter: u32, angle: u32) -> i32
    requires radius { radius ≤ 10000000 }
    requires angle { angle ≤ 90000000 }
    ensures { result ≡ along_quarter radius quarter angle }
{
    match quarter {
        0 => part_of(radius, cosine(angle)),
        1 => 0 - part_of(radius, cosine(90_000_000 - angle)),
        2 => 0 - part_of(radius, cosine(angle)),
        _ => part_of(radius, cosine(90_000_000 - angle)),
    }
}

// The same by an angle.
#[tactic(auto, unfolding(crate::specs::Polar::along))]
fn along(radius: u32, angle: u32) -> i32
    requires { radius ≤ 10000000 }
    ensures { result ≡ along radius angle }
{
    along_quarter(radius, angle / 90_000_000, angle % 90_000_000)
}

// The coordinate across it.
#[tactic(auto, unfolding(crate::specs::Polar::across))]
fn across(radius: u32, angle: u32) -> i32
    requires radius { radius ≤ 10000000 }
    requires angle { angle < 360000000 }
    ensures { result ≡ across radius angle }
{
    along(radius, (angle + 270_000_000) % 360_000_000)
}

// ---- fields

// A radius of ten metres at most, in micrometres.
fn radius_of(literal: Literal) -> Option<u32>
    ensures is { result ≡ radius_of literal }
    ensures most { IfSome result (λ n. n ≤ 10000000) }
{
    match literal {
        Literal::Int(number) if 0 <= number && number <= 10_000 => {
            Some(1_000 * number.unsigned_abs() as u32)
        }
        Literal::Thousandths(number) if 0 <= number && number <= 10_000_000 => {
            Some(number.unsigned_abs() as u32)
        }
        _ => None,
    }
}

// The radius that parts of an expression are.
fn radius_in(pieces: &[Piece]) -> Option<u32>
    ensures is { result ≡ radius_in pieces.now }
    ensures most { IfSome result (λ n. n ≤ 10000000) }
{
    match pieces.split_first() {
        Some((Piece::Number(literal), others)) if others.is_empty() => radius_of(*literal),
        _ => None,
    }
}

// An angle by a sign.
fn signed_angle(negative: bool, angle: u64) -> u32
    ensures is { result ≡ signed_angle negative angle }
    ensures most { result < 360000000 }
{
    let rest = (angle % 360_000_000) as u32;
    if negative {
        (360_000_000 - rest) % 360_000_000
    } else {
        rest
    }
}

// An angle with a sign, if there is one.
fn angle_of(negative: bool, angle: Option<u64>) -> Option<u32>
    ensures is { result ≡ angle_of negative angle }
    ensures most { IfSome result (λ a. a < 360000000) }
{
    match angle {
        Some(angle) => Some(signed_angle(negative, angle)),
        None => None,
    }
}

// The millionths of a word that is a number.
fn word_millionths(word: Token<'_>) -> Option<u64>
    ensures { result ≡ word_millionths (lexeme word.entry) }
{
    match word {
        Token::Run(bytes) => millionths_of(bytes),
        Token::Number(bytes) => millionths_of(bytes),
        _ => None,
    }
}

// The millionths of a number that stands alone.
fn lone_millionths(words: &Phrase<'_>) -> Option<u64>
    ensures { result ≡ lone_millionths words.now }
{
    match words.split_first() {
        Some((word, rest)) if rest.split_first().is_none() => word_millionths(word),
        _ => None,
    }
}

// The angle that words are, in millionths of a degree, less than a whole turn.
fn angle_in(words: &Phrase<'_>) -> Option<u32>
    ensures is { result ≡ angle_in words.now }
    ensures most { IfSome result (λ a. a < 360000000) }
{
    match words.split_first() {
        Some((Token::Minus, rest)) => angle_of(true, lone_millionths(&rest)),
        _ => angle_of(false, lone_millionths(words)),
    }
}

// The angle that the first of fields is, and the fields behind it.
fn angle_at<'a>(fields: Option<Phrase<'a>>) -> Option<(u32, Option<Phrase<'a>>)>
    ensures is { result ≡ angle_at fields.entry }
    ensures most { IfSome result (λ a. a.0 < 360000000) }
{
    let words = fields?;
    let (field, rest) = words.cut_at(Cutter::AtComma);
    match angle_in(&field) {
        Some(angle) => Some((angle, rest)),
        None => None,
    }
}

// The place of a radius, an angle and a height.
fn place_of(alloc: Global, radius: u32, angle: u32, height: Expr) -> Result<Coordinates, NoMemory>
    requires radius { radius ≤ 10000000 }
    requires angle { angle < 360000000 }
    ensures { IfOk result (λ p. p ≡ record { x = length_of (along radius angle); y = length_of (across radius angle); z = height }) }
{
    let x = length(alloc, along(radius, angle))?;
    let y = length(alloc, across(radius, angle))?;
    Ok(Coordinates { x, y, z: height })
}

// The place that a radius, an angle and a height are, and the fields behind it.
fn polar_at<'a>(
    alloc: Global,
    fields: Option<Phrase<'a>>,
) -> Result<Option<(Coordinates, Option<Phrase<'a>>)>, NoMemory>
    ensures { IfOk result (λ r. r ≡ polar_at fields.entry) }
{
    let Some((radius, rest)) = expression_at(alloc, fields)? else {
        return Ok(None);
    };
    let Some(radius) = radius_in(radius.pieces()) else {
        return Ok(None);
    };
    let Some((angle, rest)) = angle_at(rest) else {
        return Ok(None);
    };
    match expression_at(alloc, rest)? {
        Some((height, rest)) => Ok(Some((place_of(alloc, radius, angle, height)?, rest))),
        None => Ok(None),
    }
}

// The fields behind the word POL.
fn behind_polar<'a>(behind: &Phrase<'a>) -> Option<Phrase<'a>>
    ensures { result ≡ behind_polar behind.now }
{
    let fields = past(Mark::Slash, behind)?;
    let rest = past_word(b"POL", &fields)?;
    past(Mark::Comma, &rest)
}

// ---- motions and points

/// The motion of GOTO/POL.
pub(crate) fn polar_motion(alloc: Global, behind: &Phrase<'_>) -> Result<Option<Form>, NoMemory>
    ensures { IfOk result (λ f. f ≡ polar_motion behind.now) }
{
    let Some(fields) = behind_polar(behind) else {
        return Ok(None);
    };
    match polar_at(alloc, Some(fields))? {
        Some((place, None)) => Ok(Some(Form::Move(place))),
        _ => Ok(None),
    }
}

// A point along the height.
fn touched_along(place: Coordinates, axis: Option<Axis>) -> Option<Form>
    ensures { result ≡ touched_along place axis }
{
    match axis {
        Some(Axis::PlusZ) => Some(Form::Touch(place, Some(Axis::PlusZ))),
        Some(Axis::MinusZ) => Some(Form::Touch(place, Some(Axis::MinusZ))),
        _ => None,
    }
}

// A point with these fields behind its place.
fn touched_at(
    alloc: Global,
    place: Coordinates,
    rest: Option<Phrase<'_>>,
) -> Result<Option<Form>, NoMemory>
    ensures { IfOk result (λ f. f ≡ touched_at place rest.entry) }
{
    if rest.is_none() {
        return Ok(Some(Form::Touch(place, None)));
    }
    match direction_at(alloc, rest)? {
        Some(direction) => Ok(touched_along(place, axis_of(direction))),
        None => Ok(None),
    }
}

/// The point of PTMEAS/POL.
pub(crate) fn polar_touch(alloc: Global, behind: &Phrase<'_>) -> Result<Option<Form>, NoMemory>
    ensures { IfOk result (λ f. f ≡ polar_touch behind.now) }
{
    let Some(fields) = behind_polar(behind) else {
        return Ok(None);
    };
    match polar_at(alloc, Some(fields))? {
        Some((place, rest)) => touched_at(alloc, place, rest),
        None => Ok(None),
    }
}
