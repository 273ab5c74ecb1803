//! The heading of a picture.

ghost use Rattle.std.specs.Prelude.{◌≡◌, ◌++◌, pos, OnOk};
ghost use Rattle.vcm_svg.specs.Heading.{heading_label, left_out_line, left_out_text, heading_text};

use crate::pieces::Fragment;
use crate::ranges::Unit;
use crate::rect::Spot;
use crate::shapes::{Lettering, Placement, put_text};
use vcm_num::{NoMemory, Point};

// A line of the heading, so many units from the top.
fn heading_label(unit: Unit, line: u16) -> Placement
    ensures { result ≡ heading_label unit (pos line) }
{
    Placement {
        at: Spot {
            x: unit.times(20).get(),
            y: unit.times(line).get(),
        },
        size: unit.get(),
        class: Lettering::Heading,
    }
}

// Appends the line of the pieces that are left out.
fn put_left_out_line(out: &mut Vec<u8>, unit: Unit, left_out: u64) -> Result<(), NoMemory>
    ensures { OnOk result (out.new.items ≡ out.old.items ++ left_out_line unit left_out) }
{
    put_text(
        out,
        heading_label(unit, 56),
        &[
            Fragment::Text(b"the first "),
            Fragment::Count(left_out),
            Fragment::Text(b" pieces of the way are left out"),
        ],
    )
}

// Appends the line of the pieces that are left out, if there are any.
fn put_left_out(out: &mut Vec<u8>, unit: Unit, left_out: u64) -> Result<(), NoMemory>
    ensures { OnOk result (out.new.items ≡ out.old.items ++ left_out_text unit left_out) }
{
    if left_out == 0 {
        return Ok(());
    }
    put_left_out_line(out, unit, left_out)
}

/// Appends the heading: the first line, the position and the steps, and how many pieces are left out.
pub fn put_heading(
    out: &mut Vec<u8>,
    unit: Unit,
    first: &[u8],
    position: Point,
    done: u64,
    left_out: u64,
) -> Result<(), NoMemory>
    ensures { OnOk result (out.new.items ≡ out.old.items ++ heading_text unit first.now position done left_out) }
{
    put_text(out, heading_label(unit, 20), &[Fragment::Text(first)])?;
    put_text(
        out,
        heading_label(unit, 38),
        &[
            Fragment::Text(b"position "),
            Fragment::At(position),
            Fragment::Text(b"  steps "),
            Fragment::Count(done),
        ],
    )?;
    put_left_out(out, unit, left_out)
}
