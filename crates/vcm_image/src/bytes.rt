//! The bytes that stand for words of the language.

ghost use Rattle.std.specs.Prelude.{◌≡◌};
ghost use Rattle.vcm_code.specs.Words.{word_of, word_byte};
ghost use Rattle.vcm_fields.specs.Spelling.{unary, binary, axis_byte, direction_byte, setting_byte, source_byte, kind_byte};
ghost use Rattle.vcm_image.specs.Whole.{version_number};

use vcm_code::{OwnedOp, Version};
use vcm_num::{Axis, Kind};
use vcm_spec::{BinaryOp, Relation, Setting, Source, UnaryOp};

/// The number of a version.
pub(crate) fn version_number(version: Version) -> u16
    ensures { result ≡ version_number version }
{
    match version {
        Version::One => 1,
        Version::Two => 2,
    }
}

/// The tag of a unary operator.
pub(crate) fn unary_byte(op: UnaryOp) -> u8
    ensures { result ≡ unary op }
{
    match op {
        UnaryOp::Neg => 16,
        UnaryOp::Scale => 21,
        UnaryOp::Not => 48,
    }
}

/// The tag of a binary operator.
pub(crate) fn binary_byte(op: BinaryOp) -> u8
    ensures { result ≡ binary op }
{
    match op {
        BinaryOp::Add => 17,
        BinaryOp::Sub => 18,
        BinaryOp::Mul => 19,
        BinaryOp::Div => 20,
        BinaryOp::Compare(Relation::Equal) => 32,
        BinaryOp::Compare(Relation::NotEqual) => 33,
        BinaryOp::Compare(Relation::Less) => 34,
        BinaryOp::Compare(Relation::LessEqual) => 35,
        BinaryOp::Compare(Relation::Greater) => 36,
        BinaryOp::Compare(Relation::GreaterEqual) => 37,
        BinaryOp::And => 49,
        BinaryOp::Or => 50,
    }
}

/// The byte of a direction.
pub(crate) fn axis_byte(axis: Axis) -> u8
    ensures { result ≡ axis_byte axis }
{
    match axis {
        Axis::PlusX => 0,
        Axis::MinusX => 1,
        Axis::PlusY => 2,
        Axis::MinusY => 3,
        Axis::PlusZ => 4,
        Axis::MinusZ => 5,
    }
}

/// The byte of a direction that may be the nominal feature's.
pub(crate) fn direction_byte(direction: Option<Axis>) -> u8
    ensures { result ≡ direction_byte direction }
{
    match direction {
        Some(axis) => axis_byte(axis),
        None => 6,
    }
}

/// The byte of a setting.
pub(crate) fn setting_byte(setting: Setting) -> u8
    ensures { result ≡ setting_byte setting }
{
    match setting {
        Setting::Approach => 0,
        Setting::Retract => 1,
        Setting::Search => 2,
        Setting::Depth => 3,
    }
}

/// The byte of a source.
pub(crate) fn source_byte(source: Source) -> u8
    ensures { result ≡ source_byte source }
{
    match source {
        Source::Nominal => 0,
        Source::Actual => 1,
    }
}

/// The byte of a kind.
pub(crate) fn kind_byte(kind: Kind) -> u8
    ensures { result ≡ kind_byte kind }
{
    match kind {
        Kind::Int => 0,
        Kind::Real => 1,
        Kind::Bool => 2,
    }
}

/// The byte of a statement's word.
pub(crate) fn word_byte(op: &OwnedOp) -> u8
    ensures { result ≡ word_byte (word_of op.now) }
{
    op.word().byte()
}
