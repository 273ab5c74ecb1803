//! The text that a text is adapted to.

ghost use Rattle.std.specs.Prelude.{◌≡◌, ◌∷◌, IfOk, List, Bool, length, true, false};
ghost use Rattle.std.specs.Vec.Iter.{into_iter_items};
ghost use Rattle.vcm_num.specs.Lines.{whole_lines};
ghost use Rattle.vcm_adapt.specs.Marks.{restored};
ghost use Rattle.vcm_adapt.specs.Laws.{AreUnmarked};
ghost use Rattle.vcm_sentences.specs.declared.sentences.Owner.{Owner};
ghost use Rattle.vcm_survey.specs.Edits.{keeps, further, line_edits, row_edits, adapted_by};

use crate::listing::whole_lines;
use crate::reading::{Reading, read_text};
use crate::report::{count_of, put_warnings};
use crate::surveying::{is_too_long, too_many};
use crate::touching::touched;
use std::alloc::Global;
use std::vec::IntoIter;
use vcm_adapt::{Edit, adapted};
use vcm_lines::SourceFault;
use vcm_num::NoMemory;
use vcm_rules::{Class, Options, Row};
use vcm_sentences::Owner;

/// An adapted text.
#[derive(Drop)]
pub struct Adaptation {
    /// The text.
    pub text: Vec<u8>,
    /// What is told beside it.
    pub warnings: Vec<u8>,
    /// Whether all statements are tried, and none has a fault.
    pub is_whole: bool,
}

// Whether a line stays as it is.
fn keeps(edit: &Edit) -> bool
    ensures { result ≡ keeps edit.now }
{
    match edit {
        Edit::Keep => true,
        Edit::LeaveOut => false,
        Edit::Put(_) => false,
    }
}

// What becomes of a further line of a statement, whose first one stays or not.
fn further(is_kept: bool) -> Edit
    ensures { result ≡ further is_kept }
{
    if is_kept { Edit::Keep } else { Edit::LeaveOut }
}

// What becomes of a statement by its row.
fn edit_of(row: Row) -> Edit
    ensures { result ≡ row.edit }
{
    row.edit
}

// What becomes of statements, by their rows.
fn row_edits(alloc: Global, rows: Vec<Row>) -> Result<Vec<Edit>, NoMemory>
    ensures { IfOk result (λ out. out.items ≡ row_edits rows.items) }
{
    let mut edits = Vec::with_capacity(alloc, rows.len())?;
    'rows: for row in rows {
        edits.push(edit_of(row))?;
    }
    Ok(edits)
}

// What becomes of the first line of the next statement, and whether the others stay.
fn first_edit(edits: &mut IntoIter<Edit>) -> (Edit, bool)
    ensures { (os : List Owner) → (k : Bool) → line_edits (Owner.First ∷ os) (into_iter_items edits.old) k ≡ result.0 ∷ line_edits os (into_iter_items edits.new) result.1 }
{
    match edits.next() {
        None => (Edit::Keep, true),
        Some(edit) => {
            let is_kept = keeps(&edit);
            (edit, is_kept)
        }
    }
}

// What becomes of a line that belongs to this owner, and whether further lines of its statement stay.
fn next_edit(owner: &Owner, edits: &mut IntoIter<Edit>, is_kept: bool) -> (Edit, bool)
    ensures { (os : List Owner) → line_edits (owner.now ∷ os) (into_iter_items edits.old) is_kept ≡ result.0 ∷ line_edits os (into_iter_items edits.new) result.1 }
{
    match owner {
        Owner::Nobody => (Edit::Keep, is_kept),
        Owner::Other => (further(is_kept), is_kept),
        Owner::First => first_edit(edits),
    }
}

// What becomes of each line, by what becomes of each statement.
fn line_edits(alloc: Global, owners: &[Owner], edits: Vec<Edit>) -> Result<Vec<Edit>, NoMemory>
    ensures { IfOk result (λ out. out.items ≡ line_edits owners.now edits.items true) }
{
    let mut out = Vec::with_capacity(alloc, owners.len())?;
    let mut edits = edits.into_iter();
    let mut is_kept = true;
    'owners: for owner in owners {
        let (edit, stays) = next_edit(owner, &mut edits, is_kept);
        is_kept = stays;
        out.push(edit)?;
    }
    Ok(out)
}

/// The text that a text is adapted to, which was read so: each line as its statement's row says. It has as many lines as the text, and taking its
/// comments back gives the text, if no line of that had a mark.
///
/// # Errors
///
/// Out of memory.
pub fn adapted_text(
    alloc: Global,
    owners: &[Owner],
    rows: Vec<Row>,
    text: &[u8],
) -> Result<Vec<u8>, NoMemory>
    ensures text { IfOk result (λ out. out.items ≡ adapted_by owners.now rows.items text.now) }
    ensures count { IfOk result (λ out. length (whole_lines out.items) ≡ length (whole_lines text.now)) }
    ensures back { IfOk result (λ out. AreUnmarked (whole_lines text.now) → restored out.items ≡ text.now) }
{
    let edits = row_edits(alloc, rows)?;
    let edits = line_edits(alloc, owners, edits)?;
    let out = adapted(alloc, edits.as_slice(), text)?;
    Ok(out)
}

// The text that a text is adapted to, its points touched one by one where that is asked for.
fn text_of(alloc: Global, text: &[u8], read: Reading, is_touch: bool) -> Result<Vec<u8>, NoMemory>
    ensures count { IfOk result (λ out. is_touch ≡ false → length (whole_lines out.items) ≡ length (whole_lines text.now)) }
    ensures back { IfOk result (λ out. is_touch ≡ false → AreUnmarked (whole_lines text.now) → restored out.items ≡ text.now) }
{
    let owners = read.owners;
    let surveyed = read.surveyed;
    let rows = surveyed.rows;
    if is_touch {
        let lines = whole_lines(alloc, text)?;
        return touched(alloc, owners.as_slice(), rows.as_slice(), lines.as_slice());
    }
    adapted_text(alloc, owners.as_slice(), rows, text)
}

// What is told beside an adapted text.
fn warnings_of(alloc: Global, read: &Reading) -> Result<Vec<u8>, NoMemory> {
    let mut warnings = Vec::new(alloc);
    put_warnings(alloc, &read.surveyed, &mut warnings)?;
    warnings.extend_from_slice(read.missing.as_slice())?;
    Ok(warnings)
}

// Whether all statements are tried, and none has a fault.
fn is_whole(rows: &[Row]) -> bool {
    count_of(rows, Class::NotTried) == 0 && count_of(rows, Class::Fault) == 0
}

/// Adapts a text. Where points are not touched one by one, the adapted one has as many lines, and taking its comments back gives the text, if no line
/// of that had a mark.
///
/// # Errors
///
/// A text of more than 20,000 lines; out of memory.
pub fn adapt(
    alloc: Global,
    text: &[u8],
    options: &Options,
) -> Result<Result<Adaptation, SourceFault>, NoMemory>
    ensures count { IfOk result (λ r. IfOk r (λ a. options.now.is_touch ≡ false → length (whole_lines a.text.items) ≡ length (whole_lines text.now))) }
    ensures back { IfOk result (λ r. IfOk r (λ a. options.now.is_touch ≡ false → AreUnmarked (whole_lines text.now) → restored a.text.items ≡ text.now)) }
{
    if is_too_long(text) {
        return Ok(Err(too_many()));
    }
    let read = read_text(alloc, text, options)?;
    let warnings = warnings_of(alloc, &read)?;
    let is_whole = is_whole(read.surveyed.rows.as_slice());
    let text = text_of(alloc, text, read, options.is_touch)?;
    Ok(Ok(Adaptation {
        text,
        warnings,
        is_whole,
    }))
}
