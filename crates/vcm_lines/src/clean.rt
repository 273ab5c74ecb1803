//! What a line gives its statement.

ghost use Rattle.std.specs.Prelude.{◌≡◌, IfOk, IfErr, OnOk, ◌≤◌, ◌<◌, ◌++◌, true, ◌==◌, length, map, Some, None};
ghost use Rattle.std.specs.List.{list_all, position, take_while};
ghost use Rattle.vcm_lines.specs.Fault.{NoMemoryOr};
ghost use Rattle.vcm_lines.specs.Bytes.{is_plain, is_inner, is_blank, upper};
ghost use Rattle.vcm_lines.specs.Segments.{text_of, continues, segments_from, segments_of};
ghost use Rattle.vcm_lines.specs.Words.{begins_with};
ghost use Rattle.vcm_lines.specs.Leftmost.{leftmost_fault};
ghost use Rattle.vcm_lines.specs.inner.Taking.{TakesSegment, is_bare, TakesBare};

use crate::fault::{FaultCode, SourceFault};
use std::alloc::AllocError;
use vcm_num::apostrophe;

/// Whether a byte may stand outside texts and comments.
fn is_plain(b: u8) -> bool
    ensures { result ≡ is_plain b }
{
    matches!(b, b' '..=b'~' | b'\t')
}

/// Whether a byte may stand in a text or a comment.
fn is_inner(b: u8) -> bool
    ensures { result ≡ is_inner b }
{
    is_plain(b) || b >= 128
}

/// Whether a byte falls away outside texts.
fn is_blank(b: u8) -> bool
    ensures { result ≡ is_blank b }
{
    b == b' ' || b == b'\t'
}

/// A letter in upper case; another byte as it is.
pub fn upper(b: u8) -> u8
    ensures { result ≡ upper b }
{
    b.to_ascii_uppercase()
}

// Each byte that is kept outside texts stands at its own place, and a dollar at every other place.
static BARE: [u8; 256] = *b"\
    $$$$$$$$$$$$$$$$$$$$$$$$$$$$$$$$\
    $!\"#$%&$()*+,-./0123456789:;<=>?\
    @ABCDEFGHIJKLMNOPQRSTUVWXYZ[\\]^_\
    `abcdefghijklmnopqrstuvwxyz{|}~$\
    $$$$$$$$$$$$$$$$$$$$$$$$$$$$$$$$\
    $$$$$$$$$$$$$$$$$$$$$$$$$$$$$$$$\
    $$$$$$$$$$$$$$$$$$$$$$$$$$$$$$$$\
    $$$$$$$$$$$$$$$$$$$$$$$$$$$$$$$$";

/// Whether a byte outside texts is kept, in upper case: it is neither a blank nor a dollar nor an apostrophe.
fn is_bare(b: u8) -> bool
    ensures { result ≡ is_bare b }
{
    BARE[b as usize] != b'$'
}

/// How many bytes at the front are kept, as long as nothing else comes.
fn bare_len(line: &[u8]) -> usize
    ensures value { result ≡ length (take_while is_bare line.now) }
    ensures within { result ≤ length line.now }
{
    line.iter().take_while(|b| is_bare(**b)).count()
}

/// Puts letters in upper case.
fn raise(bytes: &mut [u8])
    ensures { bytes.new ≡ map upper bytes.old }
{
    for b in bytes.iter_mut() {
        *b = upper(*b);
    }
}

/// Whether all bytes may stand in a text or a comment.
fn all_inner(bytes: &[u8]) -> bool
    ensures { result ≡ list_all is_inner bytes.now }
{
    // Without a way out of the loop the compiler takes many bytes at a time.
    let mut all = true;
    for b in bytes {
        all &= is_inner(*b);
    }
    all
}

/// Where the text ends that `after` is in: its apostrophe.
fn text_end(after: &[u8]) -> Option<usize>
    ensures { result ≡ position (λ b. b == 39) after.now }
{
    apostrophe(after)
}

/// Adds the text that stands before `after`'s first apostrophe to the statement, with its apostrophes, and gives what stands behind it.
fn take_text<'a>(kept: &mut Vec<u8>, after: &'a [u8], number: u32) -> Result<&'a [u8], SourceFault>
    ensures shorter { IfOk result (λ left. length left.now ≤ length after.now) }
    ensures taken { IfOk result (λ left. TakesSegment (segments_from true after.now) kept.old.items kept.new.items left.now) }
    ensures fault { IfErr result (NoMemoryOr (λ f. (f.line ≡ number) × (leftmost_fault (segments_from true after.now) ≡ Some f.code))) }
{
    let Some(end) = text_end(after) else {
        return Err(SourceFault {
            code: FaultCode::BadSyntax,
            line: number,
        });
    };
    let text = &after[..end];
    if !all_inner(text) {
        return Err(SourceFault {
            code: FaultCode::BadByte,
            line: number,
        });
    }
    kept.push(b'\'')?;
    kept.extend_from_slice(text)?;
    kept.push(b'\'')?;
    Ok(&after[end + 1..])
}

/// Adds the bytes that are kept in upper case to the statement, up to the first other one, and gives what stands from there on.
fn take_bare<'a>(kept: &mut Vec<u8>, line: &'a [u8]) -> Result<&'a [u8], AllocError>
    ensures shorter { IfOk result (λ left. (begins_with is_bare line.now ≡ true) → length left.now < length line.now) }
    ensures taken { IfOk result (λ left. TakesBare line.now kept.old.items kept.new.items left.now) }
{
    let had = kept.len();
    let len = bare_len(line);
    kept.extend_from_slice(&line[..len])?;
    raise(&mut kept[had..]);
    Ok(&line[len..])
}

/// Adds the bytes of a line to its statement, and says whether the line goes on. `number` is the line's. The leftmost fault of the line is told.
pub(crate) fn read_line(kept: &mut Vec<u8>, line: &[u8], number: u32) -> Result<bool, SourceFault>
    ensures unbroken { OnOk result (leftmost_fault (segments_of line.now) ≡ None) }
    ensures text { OnOk result (kept.new.items ≡ kept.old.items ++ text_of line.now) }
    ensures goes_on { IfOk result (λ c. c ≡ continues line.now) }
    ensures fault { IfErr result (NoMemoryOr (λ f. (f.line ≡ number) × (leftmost_fault (segments_of line.now) ≡ Some f.code))) }
{
    let bad_byte = SourceFault {
        code: FaultCode::BadByte,
        line: number,
    };
    let bad_syntax = SourceFault {
        code: FaultCode::BadSyntax,
        line: number,
    };
    let mut continued = false;
    let mut rest = line;
    'segments: while let [first, after @ ..] = rest {
        let byte = *first;
        if is_blank(byte) {
            rest = after;
        } else if rest.starts_with(b"$$") {
            if !all_inner(&rest[2..]) {
                return Err(bad_byte);
            }
            rest = &[];
        } else if continued {
            return Err(bad_syntax);
        } else if byte == b'$' {
            continued = true;
            rest = after;
        } else if byte == b'\'' {
            rest = take_text(kept, after, number)?;
        } else if is_bare(byte) {
            rest = take_bare(kept, rest)?;
        } else {
            return Err(bad_byte);
        }
    }
    Ok(continued)
}
