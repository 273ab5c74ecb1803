//! The words of tables.

ghost use Rattle.std.specs.Prelude.{◌≡◌};
ghost use Rattle.vcm_words.specs.Operands.{axis_text, direction_text, setting_text, source_text, turn_text};

use vcm_num::Axis;
use vcm_spec::{FrameAxis, Setting, Source};

/// A direction.
pub(crate) fn axis(toward: Axis) -> &'static [u8]
    ensures { result.now ≡ axis_text toward }
{
    match toward {
        Axis::PlusX => b"+X",
        Axis::MinusX => b"-X",
        Axis::PlusY => b"+Y",
        Axis::MinusY => b"-Y",
        Axis::PlusZ => b"+Z",
        Axis::MinusZ => b"-Z",
    }
}

/// A direction, or that of the nominal feature.
pub(crate) fn direction(toward: Option<Axis>) -> &'static [u8]
    ensures { result.now ≡ direction_text toward }
{
    match toward {
        None => b"NOM",
        Some(toward) => axis(toward),
    }
}

/// A setting of the probe, as it stands in a listing: `APPRCH`.
pub fn setting(which: Setting) -> &'static [u8]
    ensures { result.now ≡ setting_text which }
{
    match which {
        Setting::Approach => b"APPRCH",
        Setting::Retract => b"RETRCT",
        Setting::Search => b"SEARCH",
        Setting::Depth => b"DEPTH",
    }
}

/// Whether the nominal or the actual feature is meant.
pub(crate) fn source(source: Source) -> &'static [u8]
    ensures { result.now ≡ source_text source }
{
    match source {
        Source::Nominal => b"NOMINAL",
        Source::Actual => b"ACTUAL",
    }
}

/// The axis of a turn.
pub(crate) fn turn(axis: FrameAxis) -> &'static [u8]
    ensures { result.now ≡ turn_text axis }
{
    match axis {
        FrameAxis::X => b"X",
        FrameAxis::Y => b"Y",
        FrameAxis::Z => b"Z",
    }
}
