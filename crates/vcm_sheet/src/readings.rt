//! What was measured at the touched points, in part coordinates.

ghost use Rattle.std.specs.Prelude.{◌≡◌};
ghost use Rattle.vcm_svg.specs.Pieces.{piece_text};
ghost use Rattle.vcm_sheet.specs.Readings.{reading_of, place_words, length_words, deviation_words};

use vcm_num::Point;
use vcm_svg::Fragment;

/// What a step measured: where the point was touched, in part coordinates; and how far that lies off its nominal place along the direction that it was measured in, if the
/// feature was declared and that has 64 bits.
#[derive(Clone, Copy)]
pub struct Reading {
    pub step: u64,
    pub at: Point,
    pub deviation: Option<i64>,
}

/// What a step measured, if it is among these.
pub fn reading_of(readings: &[Reading], step: u64) -> Option<Reading>
    ensures { result ≡ reading_of readings.now step }
{
    for reading in readings {
        if reading.step == step {
            return Some(*reading);
        }
    }
    None
}

/// Where a point was touched, in part coordinates, as it is written.
pub(crate) fn place_words(reading: Option<Reading>) -> Fragment<'static>
    ensures { piece_text result ≡ place_words reading }
{
    match reading {
        Some(reading) => Fragment::At(reading.at),
        None => Fragment::Text(b"-"),
    }
}

// A deviation as it is written.
fn length_words(deviation: Option<i64>) -> Fragment<'static>
    ensures { piece_text result ≡ length_words deviation }
{
    match deviation {
        Some(length) => Fragment::Length(length),
        None => Fragment::Text(b"-"),
    }
}

/// How far a point lies off its nominal place, as it is written.
pub(crate) fn deviation_words(reading: Option<Reading>) -> Fragment<'static>
    ensures { piece_text result ≡ deviation_words reading }
{
    match reading {
        Some(reading) => length_words(reading.deviation),
        None => Fragment::Text(b"-"),
    }
}
