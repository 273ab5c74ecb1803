//! The words of statements.

ghost use Rattle.std.specs.Prelude.{◌≡◌};
ghost use Rattle.vcm_code.specs.Words.{word_of, word_text};

use vcm_fields::BorrowedOp;

/// The word of a statement, as it is in a listing: `GOTO`, `PTMEAS`.
pub fn word(op: &BorrowedOp<'_>) -> &'static [u8]
    ensures { result.now ≡ word_text (word_of op.now) }
{
    op.word().text()
}
