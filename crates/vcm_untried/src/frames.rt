//! The frames that the statements of a text make or recall by their names.

ghost use Rattle.std.specs.Prelude.{◌≡◌};
ghost use Rattle.std.specs.Option.{option_copied};
ghost use Rattle.vcm_untried.specs.Frames.{frame_at};

use vcm_num::Items;

/// A statement that makes or recalls a frame by its name, or selects a sensor that the file of probes hasn't.
#[derive(Drop)]
pub struct NamedFrame {
    /// The line of the statement.
    pub line: u32,
    /// The name, as it is told.
    pub name: Items<u8>,
    /// Whether a frame that is given under this name is taken here; of a sensor none is.
    pub takes_given: bool,
}

/// The frame that the statement on a line names, if it names one.
pub(crate) fn frame_at<'a>(frames: &'a [NamedFrame], line: u32) -> Option<&'a NamedFrame>
    ensures { option_copied result ≡ frame_at frames.now line }
{
    for frame in frames {
        if frame.line == line {
            return Some(frame);
        }
    }
    None
}
