//! The touched points of a way, with their numbers.

ghost use Rattle.std.specs.Prelude.{◌≡◌, ◌+ℤ◌, pos, length, IfOk, OnOk};
ghost use Rattle.std.specs.List.{filter};
ghost use Rattle.vcm_sheet.specs.Lines.{has_line};
ghost use Rattle.vcm_sheet.specs.Points.{with_point, all_points};

use crate::lines::{Lines, has_line};
use std::alloc::Global;
use vcm_marks::{Mark, Moment, PlacedMark, Touched};
use vcm_num::NoMemory;
use vcm_picture::step_of;

/// A touched point, with its number, the first one of the run being 1, and with the step that touched it.
#[derive(Clone, Copy)]
pub struct Pointed {
    pub number: i64,
    pub step: Moment,
    pub touched: Touched,
}

// The number of the point behind these.
fn next_number(points: &[Pointed]) -> i64
    ensures { result ≡ pos (length points.now) +ℤ pos 1 }
{
    points.len() as i64 + 1
}

// Appends the point of a mark, if it is one.
fn push_point(points: &mut Vec<Pointed>, placed: &PlacedMark) -> Result<(), NoMemory>
    ensures { OnOk result (points.new.items ≡ with_point points.old.items placed.now placed.now.mark) }
{
    match placed.mark {
        Mark::Touches(touched) => {
            let number = next_number(points.as_slice());
            let step = step_of(placed);
            points.push(Pointed {
                number,
                step,
                touched,
            })?;
            Ok(())
        }
        Mark::Goes(_) => Ok(()),
        Mark::Meets(_) => Ok(()),
    }
}

/// The touched points of a way, in the order of the run.
///
/// # Errors
///
/// Out of memory.
pub fn all_points(alloc: Global, marks: &[PlacedMark]) -> Result<Vec<Pointed>, NoMemory>
    ensures { IfOk result (λ v. v.items ≡ all_points marks.now) }
{
    let mut points = Vec::new(alloc);
    for placed in marks {
        push_point(&mut points, placed)?;
    }
    Ok(points)
}

/// Of points those of the statements on some lines.
pub fn points_on(mut points: Vec<Pointed>, lines: Lines) -> Vec<Pointed>
    ensures { result.items ≡ filter (λ p. has_line lines p.step.line) points.items }
{
    points.retain(|point| has_line(lines, point.step.line));
    points
}
