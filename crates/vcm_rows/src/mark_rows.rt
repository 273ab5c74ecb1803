//! The rows of the marks of a way. Nothing here takes memory.

ghost use Rattle.std.specs.Prelude.{◌≡◌, flat_map};
ghost use Rattle.vcm_num.specs.Written.{Wrote};
ghost use Rattle.vcm_rows.specs.Marks.{going_letters, is_at, piece_row, touched_row, contact_row, mark_row};

use crate::rows::{Rows, write_point_row, write_points_row, write_rows};
use itoa::Buffer;
use std::io::Write;
use vcm_items::Tables;
use vcm_marks::{Contact, Going, Leg, Mark, Touched};
use vcm_num::{Point, WriteFault, int_text, write_pieces};
use vcm_report::name_at;

// The letter of a piece, and a blank.
fn going_letters(going: Going) -> &'static [u8]
    ensures { result.now ≡ going_letters going }
{
    match going {
        Going::Move => b"m ",
        Going::Approach => b"a ",
        Going::Search => b"s ",
        Going::Retract => b"r ",
        Going::Rest => b"x ",
    }
}

// Whether two points are one.
fn is_at(a: Point, b: Point) -> bool
    ensures { result ≡ is_at a b }
{
    let Point([x, y, z]) = a;
    let Point([u, v, w]) = b;
    x == u && y == v && z == w
}

// Writes the row of a piece.
fn write_piece<W: Write>(piece: &Leg, writer: &mut W) -> Result<(), WriteFault>
    ensures { Wrote (W.contents writer.old) (W.contents writer.new) (piece_row piece.now) result }
{
    let letters = going_letters(piece.going);
    if is_at(piece.to, piece.aim) {
        write_point_row(letters, piece.to, writer)
    } else {
        write_points_row(letters, piece.to, piece.aim, writer)
    }
}

// Writes the row of a touched point.
fn write_touched<W: Write>(
    tables: &Tables,
    touched: &Touched,
    writer: &mut W,
) -> Result<(), WriteFault>
    ensures { Wrote (W.contents writer.old) (W.contents writer.new) (touched_row tables.now touched.now) result }
{
    let Point([x, y, z]) = touched.at;
    write_pieces(
        writer,
        &[
            b"t ",
            int_text(x).as_slice(),
            b" ",
            int_text(y).as_slice(),
            b" ",
            int_text(z).as_slice(),
            b" ",
            name_at(tables.features(), touched.feature),
            b"\n",
        ],
    )
}

// Writes the row of a contact.
fn write_contact<W: Write>(contact: &Contact, writer: &mut W) -> Result<(), WriteFault>
    ensures { Wrote (W.contents writer.old) (W.contents writer.new) (contact_row contact.now) result }
{
    let mut digits = Buffer::new();
    let Point([x, y, z]) = contact.at;
    write_pieces(
        writer,
        &[
            b"c ",
            int_text(x).as_slice(),
            b" ",
            int_text(y).as_slice(),
            b" ",
            int_text(z).as_slice(),
            b" ",
            digits.format(contact.block).as_bytes(),
            b"\n",
        ],
    )
}

// The rows of marks.
#[derive(Clone, Copy)]
struct MarkRows<'a> {
    tables: &'a Tables,
}

impl<'a, W: Write> Rows<Mark, W> for MarkRows<'a> {
    ghost row_of = { λ s mark. mark_row s.tables.now mark };

    fn write_row(&self, mark: &Mark, writer: &mut W) -> Result<(), WriteFault> {
        match mark {
            Mark::Goes(piece) => write_piece(piece, writer),
            Mark::Touches(touched) => write_touched(self.tables, touched, writer),
            Mark::Meets(contact) => write_contact(contact, writer),
        }
    }
}

/// Writes the rows of marks.
///
/// Errors: the writer failed, or took no byte; then it has taken a front of the rows, and not all of them.
pub fn write_marks<W: Write>(
    tables: &Tables,
    marks: &[Mark],
    writer: &mut W,
) -> Result<(), WriteFault>
    ensures { Wrote (W.contents writer.old) (W.contents writer.new) (flat_map (mark_row tables.now) marks.now) result }
{
    write_rows(&MarkRows { tables }, marks, writer)
}
