//! Decimal literals, as arguments of functions.

ghost use Rattle.std.specs.Prelude.{◌≡◌, ◌≤◌, ◌<◌, IfSome};
ghost use Rattle.vcm_functions.specs.Literals.{unread, bad, digit_of, digit_behind, point_behind, sign_behind, opening_behind, end_of, closing_behind, literal_behind, value_in};

use crate::values::{Value, number};

/// Where the reading of an argument stands.
#[derive(Clone, Copy)]
pub enum Stage {
    /// Before its sign.
    Start,
    /// Before its point.
    Whole,
    /// Behind its point.
    Part,
    /// Behind its own parentheses.
    Closed,
    /// Behind the parenthesis that ends the call.
    Done,
    /// It is no literal.
    Bad,
}

/// A literal as it is read.
#[derive(Clone, Copy)]
pub struct Literal {
    pub stage: Stage,
    /// Whether parentheses of its own are open.
    pub inner: bool,
    /// Whether it has a minus.
    pub negative: bool,
    /// Whether it has a point.
    pub point: bool,
    /// Whether there is a digit at all.
    pub some: bool,
    /// Its digits, without the point.
    pub value: u64,
    /// How many billionths the last of them counts.
    pub weight: u64,
}

/// Nothing is read.
pub(crate) fn unread() -> Literal
    ensures { result ≡ unread }
{
    Literal {
        stage: Stage::Start,
        inner: false,
        negative: false,
        point: false,
        some: false,
        value: 0,
        weight: 1_000_000_000,
    }
}

// It is none.
fn bad(literal: Literal) -> Literal
    ensures { result ≡ bad literal }
{
    Literal {
        stage: Stage::Bad,
        ..literal
    }
}

// One more digit that weighs so much.
fn digit_of(literal: Literal, stage: Stage, weight: u64, digit: u64) -> Literal
    requires { digit ≤ 9 }
    ensures { result ≡ digit_of literal stage weight digit }
{
    if literal.value < 100_000_000_000_000_000 && 0 < weight {
        Literal {
            stage,
            some: true,
            value: 10 * literal.value + digit,
            weight,
            ..literal
        }
    } else {
        bad(literal)
    }
}

// A digit.
fn digit_behind(literal: Literal, digit: u64) -> Literal
    requires { digit ≤ 9 }
    ensures { result ≡ digit_behind literal.stage literal digit }
{
    match literal.stage {
        Stage::Start | Stage::Whole => digit_of(literal, Stage::Whole, literal.weight, digit),
        Stage::Part => digit_of(literal, Stage::Part, literal.weight / 10, digit),
        Stage::Closed | Stage::Done | Stage::Bad => bad(literal),
    }
}

// A point.
fn point_behind(literal: Literal) -> Literal
    ensures { result ≡ point_behind literal.stage literal }
{
    match literal.stage {
        Stage::Start | Stage::Whole => Literal {
            stage: Stage::Part,
            point: true,
            ..literal
        },
        _ => bad(literal),
    }
}

// A sign.
fn sign_behind(literal: Literal, minus: bool) -> Literal
    ensures { result ≡ sign_behind literal.stage literal minus }
{
    match literal.stage {
        Stage::Start => Literal {
            stage: Stage::Whole,
            negative: minus,
            ..literal
        },
        _ => bad(literal),
    }
}

// A parenthesis that begins.
fn opening_behind(literal: Literal) -> Literal
    ensures { result ≡ opening_behind literal.stage literal.inner literal }
{
    match (literal.stage, literal.inner) {
        (Stage::Start, false) => Literal {
            inner: true,
            ..literal
        },
        _ => bad(literal),
    }
}

// The end of what a number stands in.
fn end_of(literal: Literal) -> Literal
    ensures { result ≡ end_of literal.inner literal }
{
    if literal.inner {
        Literal {
            stage: Stage::Closed,
            inner: false,
            ..literal
        }
    } else {
        Literal {
            stage: Stage::Done,
            ..literal
        }
    }
}

// A parenthesis that ends.
fn closing_behind(literal: Literal) -> Literal
    ensures { result ≡ closing_behind literal.stage literal }
{
    match literal.stage {
        Stage::Whole | Stage::Part => {
            if literal.some {
                end_of(literal)
            } else {
                bad(literal)
            }
        }
        Stage::Closed => end_of(literal),
        Stage::Start | Stage::Done | Stage::Bad => bad(literal),
    }
}

/// One more byte, which is no blank.
pub(crate) fn literal_behind(literal: Literal, byte: u8) -> Literal
    ensures { result ≡ literal_behind literal byte }
{
    if byte.is_ascii_digit() {
        return digit_behind(literal, u64::from(byte - 48));
    }
    match byte {
        b'.' => point_behind(literal),
        b'+' => sign_behind(literal, false),
        b'-' => sign_behind(literal, true),
        b'(' => opening_behind(literal),
        b')' => closing_behind(literal),
        _ => bad(literal),
    }
}

/// The value of a literal that is below ten to the ninth.
pub(crate) fn value_in(literal: Literal) -> Option<Value>
    ensures is { result ≡ value_in literal }
    ensures most { IfSome result (λ v. v.billionths < 1000000000000000000) }
{
    let billionths = u128::from(literal.value) * u128::from(literal.weight);
    if billionths < 1_000_000_000_000_000_000 {
        Some(number(literal.point, literal.negative, billionths as u64))
    } else {
        None
    }
}
