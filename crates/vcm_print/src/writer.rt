//! Writing a few bytes behind what stands in front of them.

ghost use Rattle.std.specs.Prelude.{◌++◌, ◌∷◌};
ghost use Rattle.vcm_num.specs.Written.{Wrote};

use std::io::Write;
use vcm_num::{WriteFault, write_pieces};

/// Writes one behind the other.
pub(crate) fn write_two<W: Write>(
    front: &[u8],
    bytes: &[u8],
    writer: &mut W,
) -> Result<(), WriteFault>
    ensures { Wrote (W.contents writer.old) (W.contents writer.new) (front.now ++ bytes.now) result }
{
    write_pieces(writer, &[front, bytes])
}

/// Writes a mark between the two.
pub(crate) fn write_marked<W: Write>(
    front: &[u8],
    mark: u8,
    bytes: &[u8],
    writer: &mut W,
) -> Result<(), WriteFault>
    ensures { Wrote (W.contents writer.old) (W.contents writer.new) (front.now ++ mark ∷ bytes.now) result }
{
    write_pieces(writer, &[front, &[mark], bytes])
}
