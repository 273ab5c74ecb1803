//! Why a probe file of several probes is refused.

ghost use Rattle.std.specs.Prelude.{◌≡◌};
ghost use Rattle.vcm_probe_set.specs.declared.fault.Refusal.TheVariants.{BadKey, OutOfRange};
ghost use Rattle.vcm_probe_set.specs.declared.fault.ProbeSetFault.TheVariants.{NoMemory as Wanting, Refused};

use crate::place::{BoxOwner, Key, Place};
use std::alloc::{AllocError, AllocFailed};
use std::fmt::{Display, Formatter, Result, Write};
use vcm_boxes::ShortName;
use vcm_num::NoMemory;

/// A refusal of a probe file of several probes. Probes and boxes are counted from 1; a key that isn't known is told where it is a label of at most 32 bytes.
#[derive(Drop)]
pub enum Refusal {
    /// The bytes are no UTF-8, or no TOML.
    NotToml,
    /// A key stands there that isn't known there.
    UnknownKey(Place, Option<ShortName>),
    /// A key is absent where it has to stand, or isn't what is wanted there.
    BadKey(Place, Key),
    /// A number or a coordinate is out of its range.
    OutOfRange(Place, Key),
    /// A coordinate of a low corner is above that of its high corner.
    LowAboveHigh(Place),
    /// There are more than 64 boxes.
    TooManyBoxes(BoxOwner),
    /// A probe above has the name of this one.
    DuplicateName(u32),
    /// There are more than 64 probes.
    TooManyProbes,
    /// A probe above has the number of this one.
    DuplicateNumber(u32),
}

/// Why a probe file of several probes isn't read.
#[derive(Drop)]
pub enum ProbeSetFault {
    /// A growth of memory was refused.
    NoMemory,
    /// The file is refused.
    Refused(Refusal),
}

impl From<AllocError> for ProbeSetFault {
    ghost from_gives = { λ _ end. end ≡ Wanting };

    fn from(_: AllocError) -> ProbeSetFault {
        ProbeSetFault::NoMemory
    }
}

impl<T: Drop> From<AllocFailed<T>> for ProbeSetFault {
    ghost from_gives = { λ _ end. end ≡ Wanting };

    fn from(_: AllocFailed<T>) -> ProbeSetFault {
        ProbeSetFault::NoMemory
    }
}

impl From<NoMemory> for ProbeSetFault {
    ghost from_gives = { λ _ end. end ≡ Wanting };

    fn from(_: NoMemory) -> ProbeSetFault {
        ProbeSetFault::NoMemory
    }
}

// A key isn't there as it has to be.
pub(crate) fn bad_key(place: Place, key: Key) -> ProbeSetFault
    ensures { result ≡ Refused (BadKey place key) }
{
    ProbeSetFault::Refused(Refusal::BadKey(place, key))
}

// What stands at a key is out of range.
pub(crate) fn out_of_range(place: Place, key: Key) -> ProbeSetFault
    ensures { result ≡ Refused (OutOfRange place key) }
{
    ProbeSetFault::Refused(Refusal::OutOfRange(place, key))
}

// A key of a probe file as it is told: a sign for it where it is no label.
fn key_words(key: &Option<ShortName>) -> &str {
    match key {
        Some(label) => std::str::from_utf8(label.as_bytes()).unwrap_or("?"),
        None => "?",
    }
}

/// A refusal as it is told: its code, its name, and where.
impl Display for Refusal {
    fn fmt<W: Write>(&self, out: &mut Formatter<W>) -> Result {
        match self {
            Refusal::NotToml => out.write_str("B01 NotToml"),
            Refusal::UnknownKey(place, key) => {
                let word = key_words(key);
                write!(out, "B06 UnknownKey{place} {word}")
            }
            Refusal::BadKey(place, key) => {
                let word = key.word();
                write!(out, "B02 BadKey{place} {word}")
            }
            Refusal::OutOfRange(place, key) => {
                let word = key.word();
                write!(out, "B03 OutOfRange{place} {word}")
            }
            Refusal::LowAboveHigh(place) => write!(out, "B04 LowAboveHigh{place}"),
            Refusal::TooManyBoxes(owner) => write!(out, "B05 TooManyBoxes{owner}"),
            Refusal::DuplicateName(number) => write!(out, "B07 DuplicateName probe {number}"),
            Refusal::TooManyProbes => out.write_str("B08 TooManyProbes"),
            Refusal::DuplicateNumber(number) => write!(out, "B09 DuplicateNumber probe {number}"),
        }
    }
}
