//! The reading of listings.

ghost use Rattle.std.specs.Prelude.{◌≡◌, length, Ok, IfOk, IfErr};
ghost use Rattle.vcm_code.specs.declared.code.Code.{Code as CodeOf};
ghost use Rattle.vcm_code.specs.Valid.{IsValid};
ghost use Rattle.vcm_image.specs.Whole.{FitsImage};
ghost use Rattle.vcm_words.specs.Cutting.{split};
ghost use Rattle.vcm_words.specs.Rows.{rows, listing};
ghost use Rattle.vcm_words.specs.Listing.{empty, lines_read, code_listed};
ghost use Rattle.vcm_words.specs.Outcomes.{GivesOrWants, FaultOrWant};

use crate::growing::Growing;
use crate::lines::{at_line, head, next_line, step};
use std::alloc::Global;
use vcm_code::{Code, Version};
use vcm_loader::is_valid;
use vcm_words::{ListCode, ListFault};

// The lines of a listing of this version, from the second one on.
fn lines(alloc: Global, version: Version, bytes: &[u8]) -> Result<Growing, ListFault>
    ensures { GivesOrWants result (lines_read 2 (empty version) (split 10 bytes.now)) }
{
    let mut code = Growing::new(alloc, version);
    let mut rest = bytes;
    let mut line: u32 = 2;
    while let Some((text, after)) = next_line(rest) {
        if let Err(e) = step(alloc, &mut code, text) {
            return Err(at_line(e, line));
        }
        rest = after;
        line += 1;
    }
    if rest.is_empty() {
        Ok(code)
    } else {
        Err(at_line(ListCode::BadLine, line))
    }
}

// The first line, and those behind it.
fn all_lines(alloc: Global, bytes: &[u8]) -> Result<Growing, ListFault>
    ensures { GivesOrWants result (code_listed bytes.now) }
{
    match next_line(bytes) {
        None => Err(at_line(ListCode::BadLine, 1)),
        Some((first, rest)) => match head(first) {
            Ok(version) => lines(alloc, version, rest),
            Err(e) => Err(at_line(e, 1)),
        },
    }
}

// The code that the bytes list; whether it is valid isn't asked here.
fn code_listed(alloc: Global, bytes: &[u8]) -> Result<Code, ListFault>
    ensures { GivesOrWants result (code_listed bytes.now) }
{
    let read = all_lines(alloc, bytes)?;
    let code = read.code(alloc)?;
    Ok(code)
}

// How many lines the listing of a code has.
fn line_count(code: &Code) -> u32
    requires { FitsImage code.now }
    ensures { result ≡ length (rows code.now) }
{
    let names = code.tables.variables().len()
        + code.tables.features().len()
        + code.tables.frames().len();
    (1 + names + code.statements.len()) as u32
}

/// The valid code whose listing the bytes are.
///
/// # Errors
///
/// The first line with a broken rule, and the first of these rules that is broken there: BadLine where it has not the shape of its line or no
/// end, BadNumber where a number is spelled otherwise or out of its range, OutOfOrder where the line doesn't stand where its index or its number
/// belongs. NotValid at the last line where all lines can be read and their code is not valid. Want of memory, at line 0.
pub fn read_listing(alloc: Global, bytes: &[u8]) -> Result<Code, ListFault>
    // What is read is in range and valid, and the bytes are its listing.
    ensures found { IfOk result (λ c. FitsImage c × (IsValid c × (bytes.now ≡ listing c))) }
    // The listing of a valid code in range is read as that code, unless memory runs out.
    ensures only { (c : CodeOf) → FitsImage c → IsValid c → bytes.now ≡ listing c → GivesOrWants result (Ok c) }
    // Which fault it is, and where.
    ensures fault { IfErr result (λ f. FaultOrWant bytes.now f) }
{
    let code = code_listed(alloc, bytes)?;
    if is_valid(&code) {
        Ok(code)
    } else {
        Err(ListFault {
            code: ListCode::NotValid,
            line: line_count(&code),
        })
    }
}
