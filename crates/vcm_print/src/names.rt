//! The writing of the lines of variables, features and frames.

ghost use Rattle.std.specs.Prelude.{◌≡◌};
ghost use Rattle.vcm_num.specs.Written.{Wrote};
ghost use Rattle.vcm_words.specs.Rows.{kind_text};
ghost use Rattle.vcm_print.specs.inner.Written.{variable_bytes, name_bytes};

use itoa::Buffer;
use std::io::Write;
use vcm_num::{Kind, WriteFault, write_pieces};

// The word of a kind.
fn kind_text<'a>(kind: Kind) -> &'a [u8]
    ensures { result.now ≡ kind_text kind }
{
    match kind {
        Kind::Int => b"INTGR",
        Kind::Real => b"REAL",
        Kind::Bool => b"BOOL",
    }
}

/// Writes the line of a variable, with its end: `VAR 0 REAL x 0`.
///
/// # Errors
///
/// The writer failed, or took no byte; then it has taken a front of the line that is not all.
pub(crate) fn write_variable<W: Write>(
    n: usize,
    kind: Kind,
    name: &[u8],
    expansion: u32,
    writer: &mut W,
) -> Result<(), WriteFault>
    ensures { Wrote (W.contents writer.old) (W.contents writer.new) (variable_bytes n kind name.now expansion) result }
{
    let mut index = Buffer::new();
    let mut last = Buffer::new();
    let index = index.format(n).as_bytes();
    let last = last.format(expansion).as_bytes();
    write_pieces(
        writer,
        &[
            b"VAR ",
            index,
            b" ",
            kind_text(kind),
            b" ",
            name,
            b" ",
            last,
            b"\n",
        ],
    )
}

/// Writes the line of a feature or a frame, with its end: `FEATURE 0 top`. The heading has a blank behind it.
///
/// # Errors
///
/// The writer failed, or took no byte; then it has taken a front of the line that is not all.
pub(crate) fn write_name<W: Write>(
    heading: &[u8],
    n: usize,
    name: &[u8],
    writer: &mut W,
) -> Result<(), WriteFault>
    ensures { Wrote (W.contents writer.old) (W.contents writer.new) (name_bytes heading.now n name.now) result }
{
    let mut index = Buffer::new();
    let index = index.format(n).as_bytes();
    write_pieces(writer, &[heading, index, b" ", name, b"\n"])
}
