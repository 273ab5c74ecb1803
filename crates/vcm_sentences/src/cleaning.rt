//! What lines give their statements.

ghost use Rattle.std.specs.Prelude.{◌≡◌, ◌<◌, ◌≤◌, ◌++◌, [], ◌∷◌, true, false, length, if◌then◌else◌, IfOk, OnOk};
ghost use Rattle.vcm_lines.specs.Bytes.{is_blank, upper};
ghost use Rattle.vcm_lines.specs.Segments.{text_of, continues, segments_from, segments_of};
ghost use Rattle.vcm_sentences.specs.inner.Putting.{PutsSegment};

use vcm_lines::upper;
use vcm_num::{NoMemory, apostrophe};

// Adds a byte that stands outside texts and comments and is no dollar, if it is no blank.
fn put_plain(byte: u8, out: &mut Vec<u8>) -> Result<(), NoMemory>
    ensures { OnOk result (out.new.items ≡ out.old.items ++ (if is_blank byte then [] else upper byte ∷ [])) }
{
    if byte == b' ' || byte == b'\t' {
        return Ok(());
    }
    out.push(upper(byte))?;
    Ok(())
}

// Adds the text that stands before `after`'s first apostrophe, with its apostrophes, and gives what stands behind it. One that isn't closed falls away.
fn put_text<'a>(after: &'a [u8], out: &mut Vec<u8>) -> Result<&'a [u8], NoMemory>
    ensures shorter { IfOk result (λ left. length left.now ≤ length after.now) }
    ensures put { IfOk result (λ left. PutsSegment (segments_from true after.now) false out.old.items out.new.items left.now) }
{
    let Some(end) = apostrophe(after) else {
        return Ok(&[]);
    };
    out.push(b'\'')?;
    out.extend_from_slice(&after[..end])?;
    out.push(b'\'')?;
    Ok(&after[end + 1..])
}

// Adds what the first segment of a line leaves, and gives what stands behind it, and whether it is a dollar.
fn put_segment<'a>(line: &'a [u8], out: &mut Vec<u8>) -> Result<(&'a [u8], bool), NoMemory>
    requires { 0 < length line.now }
    ensures shorter { IfOk result (λ r. length r.0.now < length line.now) }
    ensures put { IfOk result (λ r. PutsSegment (segments_of line.now) r.1 out.old.items out.new.items r.0.now) }
{
    let byte = line[0];
    let after = &line[1..];
    if byte == b'\'' {
        let rest = put_text(after, out)?;
        return Ok((rest, false));
    }
    if byte != b'$' {
        put_plain(byte, out)?;
        return Ok((after, false));
    }
    if after.starts_with(b"$") {
        return Ok((&[], false));
    }
    Ok((after, true))
}

/// Adds the bytes that a line gives its statement, whatever faults it has, and says whether the line goes on.
pub(crate) fn put_line(line: &[u8], out: &mut Vec<u8>) -> Result<bool, NoMemory>
    ensures text { OnOk result (out.new.items ≡ out.old.items ++ text_of line.now) }
    ensures goes_on { IfOk result (λ c. c ≡ continues line.now) }
{
    let mut goes_on = false;
    let mut rest = line;
    'segments: while !rest.is_empty() {
        let (after, is_dollar) = put_segment(rest, out)?;
        goes_on = goes_on || is_dollar;
        rest = after;
    }
    Ok(goes_on)
}

// Whether a byte stands at an end of a line for nothing.
fn is_blank(byte: u8) -> bool {
    matches!(byte, b' ' | b'\t' | b'\r' | b'\n')
}

/// A line without the blanks around it.
pub fn trimmed(line: &[u8]) -> &[u8] {
    let Some(first) = line.iter().position(|byte| !is_blank(*byte)) else {
        return &[];
    };
    let behind = &line[first..];
    let Some(last) = behind.iter().rposition(|byte| !is_blank(*byte)) else {
        return behind;
    };
    match behind.get(..last.saturating_add(1)) {
        Some(bytes) => bytes,
        None => behind,
    }
}
