//! The lines of a listing, one by one.

ghost use Rattle.std.specs.Prelude.{◌≡◌, ◌∷◌, [], ℕ, true, false, List, IfSome, IfNone, Ok, Err, IfOk, IfErr, OnOk};
ghost use Rattle.vcm_words.specs.declared.fault.ListCode.TheVariants.{NoMemory as Wanting};
ghost use Rattle.vcm_words.specs.Cutting.{split};
ghost use Rattle.vcm_words.specs.Rows.{row_of};
ghost use Rattle.vcm_words.specs.Listing.{unread, first_row, after_line, after_head, empty, told};
ghost use Rattle.vcm_words.specs.Outcomes.{IsWant};
ghost use Rattle.vcm_words.specs.inner.Failing.{FailsLine};

use crate::growing::Growing;
use std::alloc::Global;
use vcm_code::Version;
use vcm_words::rows::row;
use vcm_words::{ListCode, ListFault, Row, cut};

// Why a line can't be read in a listing of this version.
fn unread(version: Version, line: &[u8]) -> ListCode
    ensures { result ≡ unread (row_of version false line.now) }
{
    match row(version, false, line) {
        Some(_) => ListCode::BadNumber,
        None => ListCode::BadLine,
    }
}

/// A line behind the first is taken to the code before it.
///
/// # Errors
///
/// BadLine, BadNumber or OutOfOrder, whichever comes first of these. Want of memory.
pub(crate) fn step(alloc: Global, code: &mut Growing, line: &[u8]) -> Result<(), ListCode>
    ensures ok { OnOk result (after_line code.old (row_of code.old.version true line.now) line.now ≡ Ok code.new) }
    ensures err { IfErr result (λ e. FailsLine e (after_line code.old (row_of code.old.version true line.now) line.now)) }
{
    let version = code.version();
    match row(version, true, line) {
        Some(row) => code.add(alloc, &row),
        None => Err(unread(version, line)),
    }
}

/// The version that the first line tells. A head is the same in each version.
///
/// # Errors
///
/// BadLine, or BadNumber where only its number is wrong.
pub(crate) fn head(line: &[u8]) -> Result<Version, ListCode>
    ensures ok { IfOk result (λ version. after_head (first_row true line.now) line.now ≡ Ok (empty version)) }
    ensures err { IfErr result (λ e. after_head (first_row true line.now) line.now ≡ Err e) }
{
    match row(Version::One, true, line) {
        Some(Row::Head(version)) => Ok(version),
        _ => match row(Version::One, false, line) {
            Some(Row::Head(_)) => Err(ListCode::BadNumber),
            _ => Err(ListCode::BadLine),
        },
    }
}

/// A broken rule at this line; want of memory is told at line 0.
pub(crate) fn at_line(code: ListCode, line: u32) -> ListFault
    ensures want { code ≡ Wanting → IsWant result }
    ensures told { (code ≡ Wanting → ⊥) → result ≡ told line code }
{
    match code {
        ListCode::NoMemory => ListFault { code, line: 0 },
        ListCode::BadLine => ListFault { code, line },
        ListCode::BadNumber => ListFault { code, line },
        ListCode::OutOfOrder => ListFault { code, line },
        ListCode::NotValid => ListFault { code, line },
    }
}

/// The first line without its end, and the bytes behind its end; none where no line has an end.
pub(crate) fn next_line(bytes: &[u8]) -> Option<(&[u8], &[u8])>
    ensures some { IfSome result (λ x. split 10 bytes.now ≡ x.0.now ∷ split 10 x.1.now) }
    ensures none { IfNone result ((w : List ℕ) × (split 10 bytes.now ≡ w ∷ [])) }
{
    let (line, left) = cut(b'\n', bytes);
    match left {
        Some(rest) => Some((line, rest)),
        None => None,
    }
}
