//! Pieces of a picture's text, which are appended one after another.

ghost use Rattle.std.specs.Fmt.{signed_decimal};
ghost use Rattle.std.specs.Prelude.{◌≡◌, ◌++◌, neg_ℤ, decimal, OnOk};
ghost use Rattle.vcm_svg.specs.Pieces.{point_text, piece_text, texts};

use itoa::Buffer;
use vcm_num::{NoMemory, Point, write_int, write_thousandths};

/// A piece of a text.
#[derive(Clone, Copy)]
pub enum Fragment<'a> {
    /// These bytes.
    Text(&'a [u8]),
    /// A whole number.
    Number(i64),
    /// A whole number, the other way round: its negative.
    Back(i64),
    /// How many there are.
    Count(u64),
    /// A length in micrometres, told in millimetres.
    Length(i64),
    /// A point, told in millimetres with blanks between its coordinates.
    At(Point),
}

/// Appends some bytes.
pub(crate) fn put_bytes(out: &mut Vec<u8>, bytes: &[u8]) -> Result<(), NoMemory>
    ensures { OnOk result (out.new.items ≡ out.old.items ++ bytes.now) }
{
    out.extend_from_slice(bytes)?;
    Ok(())
}

// Appends a number of things.
fn put_count(out: &mut Vec<u8>, count: u64) -> Result<(), NoMemory>
    ensures { OnOk result (out.new.items ≡ out.old.items ++ decimal count) }
{
    let mut buffer = Buffer::new();
    put_bytes(out, buffer.format(count).as_bytes())
}

// Appends the negative of a number.
fn put_back(out: &mut Vec<u8>, number: i64) -> Result<(), NoMemory>
    ensures { OnOk result (out.new.items ≡ out.old.items ++ signed_decimal (neg_ℤ number)) }
{
    if number == i64::MIN {
        put_count(out, 9_223_372_036_854_775_808)
    } else {
        write_int(-number, out)
    }
}

// Appends a point.
fn put_point(out: &mut Vec<u8>, at: Point) -> Result<(), NoMemory>
    ensures { OnOk result (out.new.items ≡ out.old.items ++ point_text at) }
{
    let Point([x, y, z]) = at;
    write_thousandths(x, out)?;
    put_bytes(out, b" ")?;
    write_thousandths(y, out)?;
    put_bytes(out, b" ")?;
    write_thousandths(z, out)
}

// Appends a piece.
fn put_piece(out: &mut Vec<u8>, piece: Fragment) -> Result<(), NoMemory>
    ensures { OnOk result (out.new.items ≡ out.old.items ++ piece_text piece.entry) }
{
    match piece {
        Fragment::Text(bytes) => put_bytes(out, bytes),
        Fragment::Number(number) => write_int(number, out),
        Fragment::Back(number) => put_back(out, number),
        Fragment::Count(count) => put_count(out, count),
        Fragment::Length(length) => write_thousandths(length, out),
        Fragment::At(point) => put_point(out, point),
    }
}

/// Appends pieces one after another.
pub fn put(out: &mut Vec<u8>, pieces: &[Fragment]) -> Result<(), NoMemory>
    ensures { OnOk result (out.new.items ≡ out.old.items ++ texts pieces.now) }
{
    for piece in pieces {
        put_piece(out, *piece)?;
    }
    Ok(())
}
