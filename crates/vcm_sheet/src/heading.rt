//! The heading of a sheet.

ghost use Rattle.std.specs.Prelude.{◌≡◌, ◌≤◌, ℕ, pos, ◌*ℤ◌, List, [], ◌∷◌, flat_map, map, min, if◌then◌else◌, IfOk};
ghost use Rattle.vcm_svg.specs.Pieces.{texts};
ghost use Rattle.vcm_sheet.specs.Content.{filing, heading, heading_lines};
ghost use Rattle.vcm_sheet.specs.Heading.{files_line, stop_line, position_line, lines_line, contact_words, contact_line, left_out_line, note_line, untried_lines};
ghost use Rattle.vcm_sheet.specs.Sayings.{Adds, Words};

use crate::lines::Lines;
use crate::names::{gap_before, name_of, written};
use crate::places::units;
use crate::subject::Sheet;
use std::alloc::Global;
use vcm_marks::Contact;
use vcm_num::{NoMemory, Point};
use vcm_svg::{Fragment, Lettering, Placement, Spot, Unit, few_notes, put_text};

/// How many units a line of the heading is high.
const PITCH: i64 = 18;

// Where a line of the heading is in this lettering, so many units from the top.
fn line_label(unit: Unit, down: i64, class: Lettering) -> Placement {
    Placement {
        at: Spot {
            x: units(20, unit),
            y: units(down, unit),
        },
        size: unit.get(),
        class,
    }
}

// Appends a line of the heading, so many units from the top, and gives where the next one stands.
fn put_line(out: &mut Vec<u8>, unit: Unit, down: i64, words: &[Fragment]) -> Result<i64, NoMemory>
    ensures { IfOk result (λ next. Adds (Words (texts words.now) ∷ []) out.old.items out.new.items) }
{
    put_text(out, line_label(unit, down, Lettering::Heading), words)?;
    Ok(down.saturating_add(PITCH))
}

/// The diameter of a tip of this half width.
pub(crate) fn diameter(tip: u32) -> i64
    ensures { result ≡ pos 2 *ℤ pos tip }
{
    2 * i64::from(tip)
}

// Appends the line of the files and of the tip's diameter.
fn put_files(
    alloc: Global,
    out: &mut Vec<u8>,
    unit: Unit,
    down: i64,
    sheet: &Sheet<'_>,
) -> Result<i64, NoMemory>
    ensures { IfOk result (λ next. Adds (files_line sheet.now.program_name.now sheet.now.part_name.now sheet.now.part.now.bounds.tip) out.old.items out.new.items) }
{
    let program = written(alloc, sheet.program_name)?;
    let part = written(alloc, sheet.part_name)?;
    let tip = sheet.part.bounds().tip;
    put_line(
        out,
        unit,
        down,
        &[
            Fragment::Text(b"program "),
            Fragment::Text(&program),
            Fragment::Text(b"  part "),
            Fragment::Text(&part),
            Fragment::Text(b"  tip &#8960; "),
            Fragment::Length(diameter(tip)),
            Fragment::Text(b" mm"),
        ],
    )
}

// Appends the line of the stop, of a run whose end is drawn or isn't.
fn put_stop(
    out: &mut Vec<u8>,
    unit: Unit,
    down: i64,
    is_drawn: bool,
    stopped: &[u8],
) -> Result<i64, NoMemory>
    ensures { IfOk result (λ next. Adds (stop_line is_drawn stopped.now) out.old.items out.new.items) }
{
    if is_drawn {
        return put_line(out, unit, down, &[Fragment::Text(stopped)]);
    }
    put_line(
        out,
        unit,
        down,
        &[
            Fragment::Text(b"the run ends elsewhere: "),
            Fragment::Text(stopped),
        ],
    )
}

// Appends the line of the position and the steps, if the end is drawn.
fn put_position(
    out: &mut Vec<u8>,
    unit: Unit,
    down: i64,
    is_drawn: bool,
    position: Point,
    done: u64,
) -> Result<i64, NoMemory>
    ensures { IfOk result (λ next. Adds (position_line is_drawn position done) out.old.items out.new.items) }
{
    if !is_drawn {
        return Ok(down);
    }
    put_line(
        out,
        unit,
        down,
        &[
            Fragment::Text(b"position "),
            Fragment::At(position),
            Fragment::Text(b"  steps "),
            Fragment::Count(done),
        ],
    )
}

// Appends the line of the source lines, if not all are shown.
fn put_lines(out: &mut Vec<u8>, unit: Unit, down: i64, lines: Lines) -> Result<i64, NoMemory>
    ensures { IfOk result (λ next. Adds (lines_line lines) out.old.items out.new.items) }
{
    if lines.first == 0 {
        return Ok(down);
    }
    put_line(
        out,
        unit,
        down,
        &[
            Fragment::Text(b"the way of lines "),
            Fragment::Count(u64::from(lines.first)),
            Fragment::Text(b" to "),
            Fragment::Count(u64::from(lines.last)),
        ],
    )
}

// Appends the line of a contact with a block of this name.
fn put_named_contact(
    out: &mut Vec<u8>,
    unit: Unit,
    down: i64,
    contact: Contact,
    name: &[u8],
) -> Result<i64, NoMemory>
    ensures { IfOk result (λ next. Adds (contact_words contact name.now ∷ []) out.old.items out.new.items) }
{
    put_line(
        out,
        unit,
        down,
        &[
            Fragment::Text(b"contact of the tip's centre at "),
            Fragment::At(contact.at),
            Fragment::Text(b" with block "),
            Fragment::Count(u64::from(contact.block)),
            Fragment::Text(gap_before(name)),
            Fragment::Text(name),
        ],
    )
}

// Appends the line of the contact, if there is one.
fn put_contact(
    alloc: Global,
    out: &mut Vec<u8>,
    unit: Unit,
    down: i64,
    names: &[Vec<u8>],
    contact: Option<Contact>,
) -> Result<i64, NoMemory>
    ensures { IfOk result (λ next. Adds (contact_line (map (λ n. n.items) names.now) contact) out.old.items out.new.items) }
{
    match contact {
        Some(contact) => {
            let name = written(alloc, name_of(names, contact.block as usize))?;
            put_named_contact(out, unit, down, contact, name.as_slice())
        }
        None => Ok(down),
    }
}

// Appends the line of the pieces that are left out, if there are any.
fn put_left_out(out: &mut Vec<u8>, unit: Unit, down: i64, left_out: u64) -> Result<i64, NoMemory>
    ensures { IfOk result (λ next. Adds (left_out_line left_out) out.old.items out.new.items) }
{
    if left_out == 0 {
        return Ok(down);
    }
    put_line(
        out,
        unit,
        down,
        &[
            Fragment::Text(b"the first "),
            Fragment::Count(left_out),
            Fragment::Text(b" pieces of the way are left out"),
        ],
    )
}

// Appends a line of what wasn't tried, so many units from the top, and gives where the next one stands.
fn put_note(
    alloc: Global,
    out: &mut Vec<u8>,
    unit: Unit,
    down: i64,
    line: &[u8],
) -> Result<i64, NoMemory>
    ensures { IfOk result (λ next. Adds (note_line line.now) out.old.items out.new.items) }
{
    let words = written(alloc, line)?;
    let label = line_label(unit, down, Lettering::Note);
    put_text(out, label, &[Fragment::Text(words.as_slice())])?;
    Ok(down.saturating_add(PITCH))
}

// Appends lines of what wasn't tried.
fn put_notes(
    alloc: Global,
    out: &mut Vec<u8>,
    unit: Unit,
    first: i64,
    lines: &[Vec<u8>],
) -> Result<i64, NoMemory>
    ensures { IfOk result (λ next. Adds (flat_map (λ line. note_line line.items) lines.now) out.old.items out.new.items) }
{
    let mut down = first;
    for line in lines {
        down = put_note(alloc, out, unit, down, line.as_slice())?;
    }
    Ok(down)
}

// Appends those lines of what wasn't tried that are shown.
fn put_untried(
    alloc: Global,
    out: &mut Vec<u8>,
    unit: Unit,
    down: i64,
    lines: &[Vec<u8>],
) -> Result<i64, NoMemory>
    ensures { IfOk result (λ next. Adds (untried_lines (map (λ line. line.items) lines.now)) out.old.items out.new.items) }
{
    put_notes(alloc, out, unit, down, few_notes(lines))
}

/// Appends the heading of a run that stopped so, whose end is drawn or isn't, and gives how many units below the upper edge the next line would stand.
pub(crate) fn put_heading(
    alloc: Global,
    out: &mut Vec<u8>,
    unit: Unit,
    first: &[u8],
    sheet: &Sheet<'_>,
    is_drawn: bool,
    contact: Option<Contact>,
) -> Result<i64, NoMemory>
    ensures { IfOk result (λ next. Adds (heading (filing sheet.now) first.now is_drawn contact) out.old.items out.new.items) }
{
    let position = sheet.world.position();
    let down = put_stop(out, unit, 20, is_drawn, first)?;
    let down = put_files(alloc, out, unit, down, sheet)?;
    let down = put_position(out, unit, down, is_drawn, position, sheet.done)?;
    let down = put_lines(out, unit, down, sheet.lines)?;
    let down = put_contact(alloc, out, unit, down, sheet.block_names, contact)?;
    let down = put_left_out(out, unit, down, sheet.left_out)?;
    put_untried(alloc, out, unit, down, sheet.untried)
}

// One, where something is so.
fn one_if(is_so: bool) -> u16
    ensures value { result ≡ (if is_so then 1 else 0) }
    ensures most { result ≤ 1 }
{
    u16::from(is_so)
}

// How many of so many lines of what wasn't tried are shown.
fn notes_of(lines: usize) -> u16
    ensures value { result ≡ min 40 lines }
    ensures most { result ≤ 40 }
{
    match u16::try_from(lines) {
        Ok(count) => count.min(40),
        Err(_) => 40,
    }
}

/// How many lines the heading of a run has whose end is drawn or isn't.
pub(crate) fn heading_lines(sheet: &Sheet<'_>, is_drawn: bool, contact: Option<Contact>) -> u16
    ensures value { (stopped : List ℕ) → result ≡ heading_lines (filing sheet.now) stopped is_drawn contact }
    ensures most { result ≤ 100 }
{
    2 + one_if(is_drawn)
        + one_if(sheet.lines.first != 0)
        + one_if(contact.is_some())
        + one_if(sheet.left_out != 0)
        + notes_of(sheet.untried.len())
}
