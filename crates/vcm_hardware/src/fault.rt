//! Why a description is refused.

ghost use Rattle.std.specs.Prelude.{◌≡◌, ◌++◌, OnOk};
ghost use Rattle.vcm_hardware.specs.declared.fault.HardwareFault.TheVariants.{NoMemory};
ghost use Rattle.vcm_hardware.specs.Keys.{key_word};
ghost use Rattle.vcm_hardware.specs.Told.{where_text, at_text, key_text, unknown_text, numbered_text, boxes_told, refusal_text};

use crate::pieces::{Piece, put, put_bytes};
use crate::word::Word;
use std::alloc::{AllocError, AllocFailed};
use vcm_num::NoMemory;

/// A key of a description.
#[derive(Clone, Copy)]
pub enum HardwareKey {
    Step,
    Turn,
    Variable,
    Head,
    Part,
    Tip,
    Probe,
    Name,
    Low,
    High,
    From,
    To,
    Diameter,
    At,
    Number,
    A,
    B,
}

impl HardwareKey {
    /// The word that it is spelled as.
    pub fn word(self) -> &'static str
        ensures { result.now ≡ key_word self }
    {
        match self {
            HardwareKey::Step => "step",
            HardwareKey::Turn => "turn",
            HardwareKey::Variable => "variable",
            HardwareKey::Head => "head",
            HardwareKey::Part => "part",
            HardwareKey::Tip => "tip",
            HardwareKey::Probe => "probe",
            HardwareKey::Name => "name",
            HardwareKey::Low => "low",
            HardwareKey::High => "high",
            HardwareKey::From => "from",
            HardwareKey::To => "to",
            HardwareKey::Diameter => "diameter",
            HardwareKey::At => "at",
            HardwareKey::Number => "number",
            HardwareKey::A => "a",
            HardwareKey::B => "b",
        }
    }
}

/// Where a refusal is: at the top, or in a table, counted from 1.
#[derive(Clone, Copy)]
pub enum Where {
    Top,
    Head(u32),
    Part(u32),
    Tip(u32),
    Probe(u32),
}

/// A refusal of a description. A key that isn't known has its word where it is a label of at most 32 bytes.
#[derive(Drop)]
pub enum Refusal {
    /// The bytes are no UTF-8, or no TOML.
    NotToml,
    /// A key is missing, or its value isn't what it has to be.
    BadKey(Where, HardwareKey),
    /// A number is out of range.
    OutOfRange(Where, HardwareKey),
    /// The ends of a part don't differ on just one axis.
    NotAlongAxis(u32),
    /// A probe would have so many boxes, more than 64.
    TooManyBoxes(u32, u128),
    /// There is another key.
    UnknownKey(Where, Option<Word>),
    /// One above has the name.
    DuplicateName(Where),
    /// No tip has the name.
    UnknownTip(u32),
    /// An angle is no multiple of 7.5 degrees.
    NotAStep(Where, HardwareKey),
    /// A low corner is above the high one.
    LowAboveHigh(u32),
    /// There are more of them than there may be.
    TooMany(HardwareKey),
    /// One above has the number.
    DuplicateNumber(u32),
}

/// Why a description isn't read.
#[derive(Drop)]
pub enum HardwareFault {
    /// A growth of memory was refused.
    NoMemory,
    /// The description is refused.
    Refused(Refusal),
}

impl From<AllocError> for HardwareFault {
    ghost from_gives = { λ _ end. end ≡ NoMemory };

    fn from(_: AllocError) -> HardwareFault {
        HardwareFault::NoMemory
    }
}

impl<T: Drop> From<AllocFailed<T>> for HardwareFault {
    ghost from_gives = { λ _ end. end ≡ NoMemory };

    fn from(_: AllocFailed<T>) -> HardwareFault {
        HardwareFault::NoMemory
    }
}

// Appends where a refusal is.
fn put_where(out: &mut Vec<u8>, place: Where) -> Result<(), NoMemory>
    ensures { OnOk result (out.new.items ≡ out.old.items ++ where_text place) }
{
    match place {
        Where::Top => Ok(()),
        Where::Head(number) => put_numbered(out, b" head ", number),
        Where::Part(number) => put_numbered(out, b" part ", number),
        Where::Tip(number) => put_numbered(out, b" tip ", number),
        Where::Probe(number) => put_numbered(out, b" probe ", number),
    }
}

// Appends a word and a number.
fn put_numbered(out: &mut Vec<u8>, word: &'static [u8], number: u32) -> Result<(), NoMemory>
    ensures { OnOk result (out.new.items ≡ out.old.items ++ numbered_text word.now number) }
{
    put(out, &[Piece::Text(word), Piece::Count(u128::from(number))])
}

// Appends a refusal, and where it is.
fn put_at(out: &mut Vec<u8>, words: &[u8], place: Where) -> Result<(), NoMemory>
    ensures { OnOk result (out.new.items ≡ out.old.items ++ at_text words.now place) }
{
    put_bytes(out, words)?;
    put_where(out, place)
}

// Appends a refusal, where it is and a key.
fn put_key(out: &mut Vec<u8>, words: &[u8], place: Where, key: &[u8]) -> Result<(), NoMemory>
    ensures { OnOk result (out.new.items ≡ out.old.items ++ key_text words.now place key.now) }
{
    put_at(out, words, place)?;
    put_bytes(out, b" ")?;
    put_bytes(out, key)
}

// Appends that of a key that isn't known.
fn put_unknown(out: &mut Vec<u8>, place: Where, key: &Option<Word>) -> Result<(), NoMemory>
    ensures { OnOk result (out.new.items ≡ out.old.items ++ unknown_text place key.now) }
{
    match key {
        Some(word) => put_key(out, b"H06 UnknownKey", place, word.as_bytes()),
        None => put_key(out, b"H06 UnknownKey", place, b"?"),
    }
}

// Appends that of too many boxes.
fn put_boxes(out: &mut Vec<u8>, number: u32, count: u128) -> Result<(), NoMemory>
    ensures { OnOk result (out.new.items ≡ out.old.items ++ boxes_told number count) }
{
    put_at(out, b"H05 TooManyBoxes", Where::Probe(number))?;
    put(out, &[Piece::Text(b" "), Piece::Count(count)])
}

/// Appends a refusal, as it is told.
///
/// # Errors
///
/// Want of memory.
pub fn write_refusal(refusal: &Refusal, out: &mut Vec<u8>) -> Result<(), NoMemory>
    ensures { OnOk result (out.new.items ≡ out.old.items ++ refusal_text refusal.now) }
{
    match refusal {
        Refusal::NotToml => put_bytes(out, b"H01 NotToml"),
        Refusal::BadKey(place, key) => put_key(out, b"H02 BadKey", *place, key.word().as_bytes()),
        Refusal::OutOfRange(place, key) => {
            put_key(out, b"H03 OutOfRange", *place, key.word().as_bytes())
        }
        Refusal::NotAlongAxis(number) => put_at(out, b"H04 NotAlongAxis", Where::Part(*number)),
        Refusal::TooManyBoxes(number, count) => put_boxes(out, *number, *count),
        Refusal::UnknownKey(place, key) => put_unknown(out, *place, key),
        Refusal::DuplicateName(place) => put_at(out, b"H07 DuplicateName", *place),
        Refusal::UnknownTip(number) => put_at(out, b"H08 UnknownTip", Where::Probe(*number)),
        Refusal::NotAStep(place, key) => {
            put_key(out, b"H09 NotAStep", *place, key.word().as_bytes())
        }
        Refusal::LowAboveHigh(number) => put_at(out, b"H10 LowAboveHigh", Where::Head(*number)),
        Refusal::TooMany(key) => put_key(out, b"H11 TooMany", Where::Top, key.word().as_bytes()),
        Refusal::DuplicateNumber(number) => {
            put_at(out, b"H12 DuplicateNumber", Where::Probe(*number))
        }
    }
}
