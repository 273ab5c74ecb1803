//! What the user says of the machine and the part.

use crate::flow::Position;
use std::alloc::Global;
use vcm_num::NoMemory;
use vcm_sentences::{Sentence, fields_of, parts_of, read_decimal};

/// Quarter turns about an axis.
#[derive(Clone, Copy)]
pub struct Turn {
    /// The axis: 0 to 2 for x, y and z.
    pub axis: usize,
    /// By how many degrees.
    pub degrees: i64,
}

/// Where a frame stands in machine coordinates: at its origin first, and then turned there.
#[derive(Clone, Copy)]
pub struct Stand {
    /// Its origin, in micrometres.
    pub origin: Position,
    /// How it is turned.
    pub turn: Option<Turn>,
}

/// Where a frame stands that no statement tells the place of.
#[derive(Drop)]
pub struct GivenFrame {
    /// The name of the frame, in upper case.
    pub label: Vec<u8>,
    /// Where it stands.
    pub stand: Stand,
}

// A length in millimetres as micrometres, where it has no finer digits.
fn length_of(field: &[u8]) -> Option<i64> {
    let length = read_decimal(field)?;
    if length.is_fine {
        None
    } else {
        Some(length.value / 10_000)
    }
}

// The quarter turns that the letter of an axis gives, with degrees behind it.
fn turn_of(field: &[u8]) -> Option<Turn> {
    let (axis, degrees) = match field {
        [b'X' | b'x', degrees @ ..] => (0, degrees),
        [b'Y' | b'y', degrees @ ..] => (1, degrees),
        [b'Z' | b'z', degrees @ ..] => (2, degrees),
        _ => return None,
    };
    let value = read_decimal(degrees)?.value;
    if value % 900_000_000 == 0 && value.saturating_abs() <= 2_700_000_000 {
        let degrees = value / 10_000_000;
        Some(Turn { axis, degrees })
    } else {
        None
    }
}

// The position of three lengths.
fn position_of(x: &[u8], y: &[u8], z: &[u8]) -> Option<Position> {
    Some(Position {
        x: length_of(x)?,
        y: length_of(y)?,
        z: length_of(z)?,
    })
}

// Where a frame with these fields stands.
fn stand_in(fields: &[&[u8]]) -> Option<Stand> {
    match fields {
        [x, y, z] => Some(Stand {
            origin: position_of(x, y, z)?,
            turn: None,
        }),
        [x, y, z, turn] => Some(Stand {
            origin: position_of(x, y, z)?,
            turn: Some(turn_of(turn)?),
        }),
        _ => None,
    }
}

// The name of a frame as programs have it.
fn label_of(alloc: Global, name: &[u8]) -> Result<Vec<u8>, NoMemory> {
    let mut label = Vec::new(alloc);
    for byte in name {
        label.push(byte.to_ascii_uppercase())?;
    }
    Ok(label)
}

impl GivenFrame {
    /// The frame of this name, with lengths in millimetres as `X,Y,Z`, and behind them, where it is turned, a quarter turn as `Z90`; none where the
    /// name is empty or something else is written.
    ///
    /// # Errors
    ///
    /// Out of memory.
    pub fn read(alloc: Global, name: &[u8], place: &[u8]) -> Result<Option<GivenFrame>, NoMemory> {
        let fields = fields_of(alloc, place)?;
        let Some(stand) = stand_in(fields.as_slice()) else {
            return Ok(None);
        };
        if name.is_empty() {
            return Ok(None);
        }
        let label = label_of(alloc, name)?;
        Ok(Some(GivenFrame { label, stand }))
    }
}

/// What the user says of the machine and the part.
#[derive(Drop)]
pub struct Options {
    /// Half the width of the tip, in micrometres.
    pub tip: i64,
    /// Frames that no statement tells the place of.
    pub frames: Vec<GivenFrame>,
    /// Whether statements with digits behind the micrometre are not to be tried.
    pub is_exact: bool,
    /// Whether points of features of several points are touched one by one, each in lines of its own.
    pub is_touch: bool,
}

impl Options {
    /// Where a frame stands, if the user says it.
    pub fn stand_of(&self, label: &[u8]) -> Option<Stand> {
        for frame in &self.frames {
            if frame.label.as_slice() == label {
                return Some(frame.stand);
            }
        }
        None
    }

    /// Appends a line for each given frame that no statement makes.
    pub fn put_missing(&self, sentences: &[Sentence], out: &mut Vec<u8>) -> Result<(), NoMemory> {
        for frame in &self.frames {
            if !is_made(sentences, frame.label.as_slice()) {
                out.extend_from_slice(b"no frame ")?;
                out.extend_from_slice(frame.label.as_slice())?;
                out.extend_from_slice(b" in the text\n")?;
            }
        }
        Ok(())
    }
}

// Whether a DATSET makes a frame of this name.
fn is_made(sentences: &[Sentence], label: &[u8]) -> bool {
    for sentence in sentences {
        let parts = parts_of(&sentence.bytes);
        if parts.title == label && parts.kind == b"D".as_slice() {
            return true;
        }
    }
    false
}
