//! What of a whole program wasn't tried, for its pictures.

ghost use Rattle.std.specs.Prelude.{◌≡◌, ◌==◌, IfOk};
ghost use Rattle.std.specs.List.{list_any};
ghost use Rattle.vcm_views.specs.Untried.{is_begun, flagged_by, flagged};

use std::alloc::Global;
use vcm_marks::{Going, Mark, PlacedMark};
use vcm_num::NoMemory;

/// What of a whole program wasn't tried in a run: the lines that report it, and the steps whose ways begin elsewhere than on the machine. Both are empty where all
/// was tried.
#[derive(Clone, Copy)]
pub struct Untried<'a> {
    pub lines: &'a [Vec<u8>],
    pub elsewhere: &'a [u64],
}

/// Nothing of a run wasn't tried.
pub fn all_tried<'a>() -> Untried<'a> {
    Untried {
        lines: &[],
        elsewhere: &[],
    }
}

// Whether a step is one of these.
fn is_among(steps: &[u64], step: u64) -> bool
    ensures { result ≡ list_any (λ s. s == step) steps.now }
{
    steps.iter().any(|other| *other == step)
}

// Whether a mark is the piece that a way begins with.
fn is_begun(mark: &Mark) -> bool
    ensures { result ≡ is_begun mark.now }
{
    match mark {
        Mark::Goes(piece) => matches!(piece.going, Going::Move | Going::Approach),
        Mark::Touches(_) => false,
        Mark::Meets(_) => false,
    }
}

// A mark of a way that begins elsewhere, if its step is one of these.
fn flagged_by(elsewhere: &[u64], placed: &PlacedMark) -> PlacedMark
    ensures { result ≡ flagged_by elsewhere.now placed.now }
{
    PlacedMark {
        mark: placed.mark,
        step: placed.step,
        number: placed.number,
        line: placed.line,
        is_elsewhere: is_begun(&placed.mark) && is_among(elsewhere, placed.step),
    }
}

/// Marks of a way, of which the pieces begin elsewhere with which the ways of these steps begin.
///
/// Errors: want of memory.
pub(crate) fn flagged(
    alloc: Global,
    elsewhere: &[u64],
    marks: &[PlacedMark],
) -> Result<Vec<PlacedMark>, NoMemory>
    ensures { IfOk result (λ x. x.items ≡ flagged elsewhere.now marks.now) }
{
    let mut all = Vec::new(alloc);
    for placed in marks {
        all.push(flagged_by(elsewhere, placed))?;
    }
    Ok(all)
}
