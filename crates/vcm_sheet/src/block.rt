//! The frame of a sheet on a paper, and its title block.

ghost use Rattle.std.specs.Prelude.{◌≡◌, ◌≤◌, [], ◌∷◌, ◌≤ℤ◌, pos, codes, take, OnOk, IfOk};
ghost use Rattle.vcm_svg.specs.Pieces.{texts};
ghost use Rattle.vcm_sheet.specs.Block.{paper_words, cell, tip_cell, last_cells, names_said, block_said};
ghost use Rattle.vcm_sheet.specs.Paper.{scale_words};
ghost use Rattle.vcm_sheet.specs.Sayings.{Adds, Words, say};
ghost use Rattle.vcm_sheet.specs.Written.{written};

use crate::heading::diameter;
use crate::names::written;
use crate::paper::{Paper, high_of, wide_of};
use crate::places::{moved, units};
use std::alloc::Global;
use vcm_num::NoMemory;
use vcm_svg::{Fragment, Lettering, Placement, Spot, Unit, put, put_text, quotient};

/// How far the frame stands from the left edge of a paper, and from the others.
const LEFT: i64 = 80;

const EDGE: i64 = 40;

/// How high the title block is.
const BLOCK: i64 = 48;

/// How far from its right edge the cells of the title block begin: the part, the tip, the scale, the projection and the paper.
const CELLS: [i64; 5] = [590, 340, 230, 150, 60];

// The right edge of the frame.
fn right_of(paper: Paper) -> i64 {
    i64::from(wide_of(paper)) - EDGE
}

// The lower edge of the frame.
fn foot_of(paper: Paper) -> i64 {
    i64::from(high_of(paper)) - EDGE
}

/// Appends the beginning of what stands in the frame.
pub(crate) fn begin_frame(out: &mut Vec<u8>, unit: Unit) -> Result<(), NoMemory>
    ensures { OnOk result (Adds [] out.old.items out.new.items) }
{
    put(
        out,
        &[
            Fragment::Text(b"<g transform=\"translate("),
            Fragment::Number(units(LEFT, unit)),
            Fragment::Text(b" "),
            Fragment::Number(units(EDGE, unit)),
            Fragment::Text(b")\">\n"),
        ],
    )
}

// Appends the frame.
fn put_frame(out: &mut Vec<u8>, unit: Unit, paper: Paper) -> Result<(), NoMemory>
    ensures { OnOk result (Adds [] out.old.items out.new.items) }
{
    put(
        out,
        &[
            Fragment::Text(b"</g>\n<path class=\"k\" fill=\"none\" d=\"M"),
            Fragment::Number(units(LEFT, unit)),
            Fragment::Text(b" "),
            Fragment::Number(units(EDGE, unit)),
            Fragment::Text(b"H"),
            Fragment::Number(units(right_of(paper), unit)),
            Fragment::Text(b"V"),
            Fragment::Number(units(foot_of(paper), unit)),
            Fragment::Text(b"H"),
            Fragment::Number(units(LEFT, unit)),
            Fragment::Text(b"Zm0 "),
            Fragment::Number(units(foot_of(paper).saturating_sub(BLOCK + EDGE), unit)),
            Fragment::Text(b"H"),
            Fragment::Number(units(right_of(paper), unit)),
            Fragment::Text(b"\"/>\n"),
        ],
    )
}

// Appends the line before a cell that begins so far from the right edge.
fn put_border(out: &mut Vec<u8>, unit: Unit, paper: Paper, from_right: i64) -> Result<(), NoMemory>
    ensures { OnOk result (Adds [] out.old.items out.new.items) }
{
    put(
        out,
        &[
            Fragment::Text(b"<path class=\"k\" d=\"M"),
            Fragment::Number(units(right_of(paper).saturating_sub(from_right), unit)),
            Fragment::Text(b" "),
            Fragment::Number(units(foot_of(paper), unit)),
            Fragment::Text(b"v"),
            Fragment::Number(units(-BLOCK, unit)),
            Fragment::Text(b"\"/>\n"),
        ],
    )
}

// Appends the lines between the cells.
fn put_borders(out: &mut Vec<u8>, unit: Unit, paper: Paper) -> Result<(), NoMemory>
    ensures { OnOk result (Adds [] out.old.items out.new.items) }
{
    for from_right in &CELLS {
        put_border(out, unit, paper, *from_right)?;
    }
    Ok(())
}

// Appends the symbol of third-angle projection, the circles left of the cone, in the cell that begins there.
fn put_symbol(out: &mut Vec<u8>, unit: Unit, at: Spot) -> Result<(), NoMemory>
    ensures { OnOk result (Adds [] out.old.items out.new.items) }
{
    put(
        out,
        &[
            Fragment::Text(b"<path class=\"k\" fill=\"none\" transform=\"translate("),
            Fragment::Number(at.x),
            Fragment::Text(b" "),
            Fragment::Number(at.y),
            Fragment::Text(b") scale("),
            Fragment::Number(unit.get()),
            Fragment::Text(
                b")\" style=\"stroke-width:1\" d=\"M2 0a8 8 0 1 0 16 0a8 8 0 1 0 -16 0M6 0a4 4 0 1 0 8 0a4 4 0 1 0 -8 0M26 -4L46 -8V8L26 4ZM0 0H20M10 -10V10M24 0H48\"/>\n",
            ),
        ],
    )
}

// Where the words of a cell that begins so far from the right edge stand: in its upper or its lower line.
fn words_at(unit: Unit, paper: Paper, from_right: i64, is_lower: bool) -> Spot {
    let down = if is_lower { 12 } else { 32 };
    Spot {
        x: units(
            right_of(paper).saturating_sub(from_right).saturating_add(6),
            unit,
        ),
        y: units(foot_of(paper).saturating_sub(down), unit),
    }
}

// Words that begin there.
fn words_label(unit: Unit, at: Spot) -> Placement {
    Placement {
        at,
        size: unit.get(),
        class: Lettering::Plain,
    }
}

// Appends words of a cell.
fn put_words(
    out: &mut Vec<u8>,
    unit: Unit,
    at: Spot,
    words: &[Fragment<'_>],
) -> Result<(), NoMemory>
    ensures { OnOk result (Adds (Words (texts words.now) ∷ []) out.old.items out.new.items) }
{
    put_text(out, words_label(unit, at), words)
}

// Appends what a cell is, and its value.
fn put_cell(
    out: &mut Vec<u8>,
    unit: Unit,
    paper: Paper,
    from_right: i64,
    what: &[u8],
    value: &[Fragment<'_>],
) -> Result<(), NoMemory>
    ensures { OnOk result (Adds (say (what.now ∷ []) ∷ Words (texts value.now) ∷ []) out.old.items out.new.items) }
{
    let upper = words_at(unit, paper, from_right, false);
    put_words(out, unit, upper, &[Fragment::Text(what)])?;
    put_words(out, unit, words_at(unit, paper, from_right, true), value)
}

// The first bytes of a name.
fn front_of(name: &[u8], most: usize) -> &[u8]
    ensures { result.now ≡ take most name.now }
{
    &name[..name.len().min(most)]
}

// Appends the diameter of a tip of this half width.
fn put_tip(out: &mut Vec<u8>, unit: Unit, paper: Paper, tip: u32) -> Result<(), NoMemory>
    ensures { OnOk result (Adds (tip_cell tip) out.old.items out.new.items) }
{
    put_cell(
        out,
        unit,
        paper,
        340,
        b"tip",
        &[
            Fragment::Text(b"&#8960; "),
            Fragment::Length(diameter(tip)),
            Fragment::Text(b" mm"),
        ],
    )
}

// Appends a scale, in tenths of the N of 1:N.
fn put_scale(out: &mut Vec<u8>, unit: Unit, paper: Paper, scale: i64) -> Result<(), NoMemory>
    requires { pos 1 ≤ℤ scale }
    ensures { OnOk result (Adds (cell (codes "scale") (scale_words scale)) out.old.items out.new.items) }
{
    if scale < 10 {
        let value = &[Fragment::Number(quotient(10, scale)), Fragment::Text(b":1")];
        return put_cell(out, unit, paper, 230, b"scale", value);
    }
    let value = &[Fragment::Text(b"1:"), Fragment::Number(quotient(scale, 10))];
    put_cell(out, unit, paper, 230, b"scale", value)
}

// The name of a paper.
fn paper_words(paper: Paper) -> &'static [u8]
    ensures { result.now ≡ paper_words paper }
{
    match paper {
        Paper::A4 => b"A4",
        Paper::A3 => b"A3",
    }
}

// Appends the projection and the paper.
fn put_last(out: &mut Vec<u8>, unit: Unit, paper: Paper) -> Result<(), NoMemory>
    ensures { OnOk result (Adds (last_cells paper) out.old.items out.new.items) }
{
    let upper = words_at(unit, paper, 150, false);
    put_words(out, unit, upper, &[Fragment::Text(b"third-angle")])?;
    let lower = moved(words_at(unit, paper, 150, true), 0, units(-3, unit));
    put_symbol(out, unit, lower)?;
    put_cell(
        out,
        unit,
        paper,
        60,
        b"sheet",
        &[Fragment::Text(paper_words(paper))],
    )
}

// Appends the title of the program and the file of the part, as far as there is room.
fn put_names(
    alloc: Global,
    out: &mut Vec<u8>,
    unit: Unit,
    paper: Paper,
    title: &[u8],
    part: &[u8],
) -> Result<(), NoMemory>
    ensures { OnOk result (Adds (names_said title.now part.now) out.old.items out.new.items) }
{
    let title = written(alloc, front_of(title, 70))?;
    let left = right_of(paper).saturating_sub(LEFT);
    let words = &[Fragment::Text(title.as_slice())];
    put_cell(out, unit, paper, left, b"program", words)?;
    let part = written(alloc, front_of(part, 38))?;
    let words = &[Fragment::Text(part.as_slice())];
    put_cell(out, unit, paper, 590, b"part", words)
}

/// Appends the end of what stands in the frame, the frame, and the title block.
pub(crate) fn put_block(
    alloc: Global,
    out: &mut Vec<u8>,
    unit: Unit,
    paper: Paper,
    title: &[u8],
    part: &[u8],
    tip: u32,
    scale: i64,
) -> Result<(), NoMemory>
    requires { pos 1 ≤ℤ scale }
    ensures { OnOk result (Adds (block_said paper title.now part.now tip scale) out.old.items out.new.items) }
{
    put_frame(out, unit, paper)?;
    put_borders(out, unit, paper)?;
    put_names(alloc, out, unit, paper, title, part)?;
    put_tip(out, unit, paper, tip)?;
    put_scale(out, unit, paper, scale)?;
    put_last(out, unit, paper)
}
