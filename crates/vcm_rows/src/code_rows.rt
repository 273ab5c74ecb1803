//! The rows of the code and of lines without effect. Nothing here takes memory.

ghost use Rattle.std.specs.Prelude.{◌≡◌, ◌<◌, ◌∷◌, [], Some, length, slice_get, decimal, codes, flat_map};
ghost use Rattle.vcm_num.specs.Written.{Wrote};
ghost use Rattle.vcm_code.specs.Code.{CodeStatement};
ghost use Rattle.vcm_rows.specs.Opening.{statement_row, code_rows, notice_row, listing_row};

use crate::rows::{Numbered, Rows, write_numbered, write_rows};
use itoa::Buffer;
use std::io::Write;
use vcm_fields::BorrowedStatement;
use vcm_loader::Loaded;
use vcm_num::{WriteFault, write_pieces};
use vcm_print::word;
use vcm_program::Noticed;

// Writes the row of a statement.
fn write_statement<W: Write>(
    statement: &BorrowedStatement<'_>,
    writer: &mut W,
) -> Result<(), WriteFault>
    ensures { Wrote (W.contents writer.old) (W.contents writer.new) (statement_row (Some statement.now)) result }
{
    let mut digits = Buffer::new();
    write_pieces(
        writer,
        &[
            b"C ",
            digits.format(statement.line).as_bytes(),
            b" ",
            word(&statement.op),
            b"\n",
        ],
    )
}

// The rows of the statements of a code.
#[derive(Clone, Copy)]
struct StatementRows<'a> {
    loaded: &'a Loaded<'a>,
}

impl<'a, W: Write> Numbered<W> for StatementRows<'a> {
    ghost count = { λ s. length s.loaded.now.statements };

    ghost row_at = { λ s n. statement_row (slice_get s.loaded.now.statements n) };

    fn write_row_at(&self, number: usize, writer: &mut W) -> Result<(), WriteFault> {
        write_statement(&self.loaded.statement(number), writer)
    }
}

/// Writes the rows of the statements.
///
/// Errors: the writer failed, or took no byte; then it has taken a front of the rows, and not all of them.
pub fn write_code<'a, W: Write>(loaded: &'a Loaded<'a>, writer: &mut W) -> Result<(), WriteFault>
    ensures { Wrote (W.contents writer.old) (W.contents writer.new) (code_rows loaded.now) result }
{
    write_numbered(&StatementRows { loaded }, loaded.statement_count(), writer)
}

// The rows of lines without effect.
#[derive(Clone, Copy)]
struct NoticeRows;

impl<W: Write> Rows<Noticed, W> for NoticeRows {
    ghost row_of = { λ s notice. notice_row notice };

    fn write_row(&self, notice: &Noticed, writer: &mut W) -> Result<(), WriteFault> {
        let mut digits = Buffer::new();
        write_pieces(
            writer,
            &[
                b"N ",
                digits.format(notice.line).as_bytes(),
                b" ",
                notice.word.word(),
                b"\n",
            ],
        )
    }
}

/// Writes the rows of lines without effect.
///
/// Errors: the writer failed, or took no byte; then it has taken a front of the rows, and not all of them.
pub fn write_notices<W: Write>(notices: &[Noticed], writer: &mut W) -> Result<(), WriteFault>
    ensures { Wrote (W.contents writer.old) (W.contents writer.new) (flat_map notice_row notices.now) result }
{
    write_rows(&NoticeRows, notices, writer)
}

/// Writes where the statements stand in a listing, if the shown text is one.
///
/// Errors: the writer failed, or took no byte; then it has taken a front of the row, and not all of it.
pub fn write_listing_row<W: Write>(
    loaded: &Loaded<'_>,
    is_listing: bool,
    writer: &mut W,
) -> Result<(), WriteFault>
    ensures { Wrote (W.contents writer.old) (W.contents writer.new) (listing_row is_listing loaded.now.tables) result }
{
    if !is_listing {
        return Ok(());
    }
    loaded.known_valid();
    let before = 1 + (loaded.variable_count() + (loaded.feature_count() + loaded.frame_count()));
    let mut digits = Buffer::new();
    write_pieces(writer, &[b"I ", digits.format(before).as_bytes(), b"\n"])
}
