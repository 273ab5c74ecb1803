//! The adapted text.

ghost use Rattle.std.specs.Prelude.{◌≡◌, ◌++◌, ◌∷◌, ◌<◌, IfOk, OnOk, length};
ghost use Rattle.vcm_num.specs.Lines.{whole_lines};
ghost use Rattle.vcm_adapt.specs.Marks.{restored};
ghost use Rattle.vcm_adapt.specs.Adapted.{edited, edited_lines, adapted};
ghost use Rattle.vcm_adapt.specs.Laws.{AreNew, KeepNoMark, AreUnmarked};

use crate::edit::{Edit, known};
use std::alloc::Global;
use vcm_num::{NoMemory, whole_line};

/// Appends what becomes of a line.
///
/// # Errors
///
/// Out of memory.
pub fn put_line(out: &mut Vec<u8>, edit: &Edit, line: &[u8]) -> Result<(), NoMemory>
    ensures { OnOk result (out.new.items ≡ out.old.items ++ edited edit.now line.now) }
{
    match edit {
        Edit::Keep => {}
        Edit::LeaveOut => out.extend_from_slice(b"$$- ")?,
        Edit::Put(new) => {
            out.extend_from_slice(new.as_bytes())?;
            out.extend_from_slice(b"  $$- ")?;
        }
    }
    out.extend_from_slice(line)?;
    Ok(())
}

/// Writes the adapted text.
fn edit_text(alloc: Global, edits: &[Edit], text: &[u8]) -> Result<Vec<u8>, NoMemory>
    ensures text { IfOk result (λ out. out.items ≡ adapted edits.now text.now) }
    ensures new { OnOk result (AreNew edits.now) }
{
    let mut out = Vec::with_capacity(alloc, text.len())?;
    let mut rest = text;
    'edits: for edit in edits {
        known(edit);
        if !rest.is_empty() {
            let (line, after) = whole_line(rest);
            put_line(&mut out, edit, line)?;
            rest = after;
        }
    }
    out.extend_from_slice(rest)?;
    Ok(out)
}

/// The adapted text: each line as its edit says, and the lines behind the last edit as they are. Line N of it comes of line N of the text, and taking
/// the comments back gives the text, if no line is kept that has a mark; so it does for a text without marks.
///
/// # Errors
///
/// Out of memory.
pub fn adapted(alloc: Global, edits: &[Edit], text: &[u8]) -> Result<Vec<u8>, NoMemory>
    ensures text { IfOk result (λ out. out.items ≡ adapted edits.now text.now) }
    ensures lines { IfOk result (λ out. whole_lines out.items ≡ edited_lines edits.now (whole_lines text.now)) }
    ensures back { IfOk result (λ out. KeepNoMark edits.now (whole_lines text.now) → restored out.items ≡ text.now) }
    ensures count { IfOk result (λ out. length (whole_lines out.items) ≡ length (whole_lines text.now)) }
    ensures unmarked { IfOk result (λ out. AreUnmarked (whole_lines text.now) → restored out.items ≡ text.now) }
{
    let out = edit_text(alloc, edits, text)?;
    Ok(out)
}
