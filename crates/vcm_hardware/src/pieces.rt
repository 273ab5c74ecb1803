//! Texts in pieces.

ghost use Rattle.std.specs.Prelude.{◌≡◌, ◌++◌, OnOk};
ghost use Rattle.std.specs.Fmt.{decimal, signed_decimal};
ghost use Rattle.vcm_hardware.specs.Pieces.{point_text, piece_text, texts};

use itoa::Buffer;
use vcm_num::{NoMemory, Point, write_int};

/// A piece of a text.
#[derive(Clone, Copy)]
pub enum Piece<'a> {
    /// These bytes.
    Text(&'a [u8]),
    /// A whole number.
    Number(i64),
    /// A point as an array of three numbers.
    At(Point),
    /// How many there are.
    Count(u128),
}

/// Appends some bytes.
pub fn put_bytes(out: &mut Vec<u8>, bytes: &[u8]) -> Result<(), NoMemory>
    ensures { OnOk result (out.new.items ≡ out.old.items ++ bytes.now) }
{
    out.extend_from_slice(bytes)?;
    Ok(())
}

// Appends a number of things.
fn put_count(out: &mut Vec<u8>, count: u128) -> Result<(), NoMemory>
    ensures { OnOk result (out.new.items ≡ out.old.items ++ decimal count) }
{
    let mut buffer = Buffer::new();
    put_bytes(out, buffer.format(count).as_bytes())
}

// Appends some bytes and a number.
fn put_behind(out: &mut Vec<u8>, word: &'static [u8], number: i64) -> Result<(), NoMemory>
    ensures { OnOk result (out.new.items ≡ out.old.items ++ (word.now ++ signed_decimal number)) }
{
    put_bytes(out, word)?;
    write_int(number, out)
}

// Appends a point.
fn put_point(out: &mut Vec<u8>, at: Point) -> Result<(), NoMemory>
    ensures { OnOk result (out.new.items ≡ out.old.items ++ point_text at) }
{
    let Point([x, y, z]) = at;
    put_behind(out, b"[", x)?;
    put_behind(out, b", ", y)?;
    put_behind(out, b", ", z)?;
    put_bytes(out, b"]")
}

// Appends a piece.
fn put_piece(out: &mut Vec<u8>, piece: Piece) -> Result<(), NoMemory>
    ensures { OnOk result (out.new.items ≡ out.old.items ++ piece_text piece.entry) }
{
    match piece {
        Piece::Text(bytes) => put_bytes(out, bytes),
        Piece::Number(number) => write_int(number, out),
        Piece::At(point) => put_point(out, point),
        Piece::Count(count) => put_count(out, count),
    }
}

/// Appends pieces one after another.
pub fn put(out: &mut Vec<u8>, pieces: &[Piece]) -> Result<(), NoMemory>
    ensures { OnOk result (out.new.items ≡ out.old.items ++ texts pieces.now) }
{
    for piece in pieces {
        put_piece(out, *piece)?;
    }
    Ok(())
}
