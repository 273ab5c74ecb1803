//! Reads number literals that stand for whole numbers.

ghost use Rattle.std.specs.Prelude.{◌≡◌};
ghost use Rattle.vcm_expr.specs.Digits.{read_of};
ghost use Rattle.vcm_expr.specs.Parsing.{ReadAs};
ghost use Rattle.vcm_syntax.specs.inner.Steps.{at_place};
ghost use Rattle.vcm_syntax.specs.Figures.{figure_by, digits_of, figure_of, component_of, or_bad, integer_by, integer_of, is_plain, is_whole, are_whole, direction_by, vector_of, quarters_by, angle_of, word_by, feature_word_of, one_of};

use crate::places::{field, found, sole, unsupported};
use vcm_lines::{FaultCode, Phrase, SourceFault, Token, bad_syntax};
use vcm_num::{Axis, Literal, NumFault, neg, read_number};
use vcm_spec::{FeatureWord, Quarters};

/// A number literal with its sign.
#[derive(Clone, Copy)]
pub struct Figure {
    pub minus: bool,
    pub literal: Literal,
}

/// Whether a literal is this whole number.
fn is_plain(literal: Literal, number: i32) -> bool
    ensures { result ≡ is_plain literal number }
{
    match literal {
        Literal::Int(whole) => whole == i64::from(number),
        Literal::Thousandths(thousandths) => thousandths == i64::from(number) * 1000,
    }
}

impl Figure {
    /// Whether it is this whole number.
    fn is_whole(self, number: i16) -> bool
        ensures { result ≡ is_whole self number }
    {
        if self.minus {
            is_plain(self.literal, -i32::from(number))
        } else {
            is_plain(self.literal, i32::from(number))
        }
    }
}

fn figure_by(minus: bool, read: Result<Literal, NumFault>) -> Result<Figure, FaultCode>
    ensures { result ≡ figure_by minus read }
{
    match read {
        Ok(literal) => Ok(Figure { minus, literal }),
        Err(NumFault::BadNumber) => Err(FaultCode::BadSyntax),
        Err(NumFault::TooFine) => Err(FaultCode::TooFine),
        Err(NumFault::TooLarge) => Err(FaultCode::NumberTooLarge),
    }
}

/// Digits behind a sign.
#[tactic(auto, using(vcm_expr::proofs::NumberReading::read_is))]
fn signed(minus: bool, bytes: &[u8]) -> Result<Figure, FaultCode>
    ensures { result ≡ figure_by minus (read_of bytes.now) }
{
    figure_by(minus, read_number(bytes))
}

/// Digits behind a sign, and the words behind them.
fn digits<'a>(
    line: u32,
    minus: bool,
    words: &Phrase<'a>,
) -> Result<(Figure, Phrase<'a>), SourceFault>
    ensures { ReadAs line (λ r. r) result (digits_of minus words.now) }
{
    match words.split_first() {
        Some((Token::Run(bytes) | Token::Number(bytes), rest)) => match signed(minus, bytes) {
            Ok(figure) => Ok((figure, rest)),
            Err(code) => Err(SourceFault { code, line }),
        },
        _ => Err(bad_syntax(line)),
    }
}

/// A number literal with a sign or without, and the words behind it.
fn number<'a>(line: u32, words: &Phrase<'a>) -> Result<(Figure, Phrase<'a>), SourceFault>
    ensures { ReadAs line (λ r. r) result (figure_of words.now) }
{
    match words.split_first() {
        Some((Token::Minus, rest)) => digits(line, true, &rest),
        Some((Token::Plus, rest)) => digits(line, false, &rest),
        _ => digits(line, false, words),
    }
}

/// The number literal in the field at a place.
fn component(line: u32, fields: &[Phrase<'_>], place: usize) -> Result<Figure, SourceFault>
    ensures { ReadAs line (λ f. f) result (at_place component_of fields.now place) }
{
    let (figure, rest) = number(line, field(line, fields, place)?)?;
    sole(line, &rest, figure)
}

/// The whole number that a literal is behind a sign; one with decimals is none.
fn integer_by(minus: bool, literal: Literal) -> Result<i64, FaultCode>
    ensures { result ≡ integer_by minus literal }
{
    match literal {
        Literal::Int(whole) if minus => match neg(whole) {
            Ok(number) => Ok(number),
            Err(_) => Err(FaultCode::BadSyntax),
        },
        Literal::Int(whole) => Ok(whole),
        Literal::Thousandths(_) => Err(FaultCode::BadSyntax),
    }
}

/// A whole number, with a sign or without, in the field at a place.
pub(crate) fn integer(line: u32, fields: &[Phrase<'_>], place: usize) -> Result<i64, SourceFault>
    ensures { ReadAs line (λ z. z) result (at_place integer_of fields.now place) }
{
    let (figure, rest) = number(line, field(line, fields, place)?)?;
    match integer_by(figure.minus, figure.literal) {
        Ok(number) => sole(line, &rest, number),
        Err(code) => Err(SourceFault { code, line }),
    }
}

fn are_whole(x: Figure, y: Figure, z: Figure, i: i16, j: i16, k: i16) -> bool
    ensures { result ≡ are_whole x y z i j k }
{
    x.is_whole(i) && y.is_whole(j) && z.is_whole(k)
}

fn direction(x: Figure, y: Figure, z: Figure) -> Option<Axis>
    ensures { result ≡ direction_by x y z }
{
    if are_whole(x, y, z, 1, 0, 0) {
        Some(Axis::PlusX)
    } else if are_whole(x, y, z, -1, 0, 0) {
        Some(Axis::MinusX)
    } else if are_whole(x, y, z, 0, 1, 0) {
        Some(Axis::PlusY)
    } else if are_whole(x, y, z, 0, -1, 0) {
        Some(Axis::MinusY)
    } else if are_whole(x, y, z, 0, 0, 1) {
        Some(Axis::PlusZ)
    } else if are_whole(x, y, z, 0, 0, -1) {
        Some(Axis::MinusZ)
    } else {
        None
    }
}

/// A direction, its components in the first three fields.
pub(crate) fn vector(line: u32, fields: &[Phrase<'_>]) -> Result<Axis, SourceFault>
    ensures { ReadAs line (λ d. d) result (vector_of fields.now) }
{
    let x = component(line, fields, 0)?;
    let y = component(line, fields, 1)?;
    let (z, rest) = number(line, field(line, fields, 2)?)?;
    found(line, direction(x, y, z), &rest, FaultCode::NotAxis)
}

fn quarters(figure: Figure) -> Option<Quarters>
    ensures { result ≡ quarters_by figure }
{
    if figure.is_whole(0) {
        Some(Quarters::Zero)
    } else if figure.is_whole(90) || figure.is_whole(-270) {
        Some(Quarters::One)
    } else if figure.is_whole(180) || figure.is_whole(-180) {
        Some(Quarters::Two)
    } else if figure.is_whole(270) || figure.is_whole(-90) {
        Some(Quarters::Three)
    } else {
        None
    }
}

/// An angle in degrees, as quarter turns, in the field at a place.
pub(crate) fn angle(line: u32, fields: &[Phrase<'_>], place: usize) -> Result<Quarters, SourceFault>
    ensures { ReadAs line (λ n. n) result (at_place angle_of fields.now place) }
{
    let (figure, rest) = number(line, field(line, fields, place)?)?;
    found(line, quarters(figure), &rest, FaultCode::NotQuarterTurn)
}

fn word_by(figure: Figure) -> Option<FeatureWord>
    ensures { result ≡ word_by figure }
{
    if figure.is_whole(3) {
        Some(FeatureWord::X)
    } else if figure.is_whole(4) {
        Some(FeatureWord::Y)
    } else if figure.is_whole(5) {
        Some(FeatureWord::Z)
    } else if figure.is_whole(6) {
        Some(FeatureWord::I)
    } else if figure.is_whole(7) {
        Some(FeatureWord::J)
    } else if figure.is_whole(8) {
        Some(FeatureWord::K)
    } else {
        None
    }
}

/// The word of a feature, by its place in the feature's line; in the field at a place.
pub(crate) fn feature_word(
    line: u32,
    fields: &[Phrase<'_>],
    place: usize,
) -> Result<FeatureWord, SourceFault>
    ensures { ReadAs line (λ w. w) result (at_place feature_word_of fields.now place) }
{
    let (figure, rest) = number(line, field(line, fields, place)?)?;
    found(line, word_by(figure), &rest, FaultCode::Unsupported)
}

/// The count 1, in the field at a place.
pub(crate) fn one(line: u32, fields: &[Phrase<'_>], place: usize) -> Result<(), SourceFault>
    ensures { ReadAs line (λ u. u) result (at_place one_of fields.now place) }
{
    let (figure, rest) = number(line, field(line, fields, place)?)?;
    if figure.is_whole(1) {
        sole(line, &rest, ())
    } else {
        Err(unsupported(line))
    }
}
