//! What is told behind a number of ways.

ghost use Rattle.std.specs.Prelude.{◌≡◌, ◌++◌, IfOk, OnOk};
ghost use Rattle.vcm_untried.specs.Telling.{shown};
ghost use Rattle.vcm_untried.specs.Marking.{is_motion, with_motions, motions, end_behind, behind_ways};

use crate::about::About;
use crate::counting::Counts;
use crate::lines::{put, put_before};
use crate::rows::Row;
use std::alloc::Global;
use vcm_num::NoMemory;

// Whether a motion isn't tried.
fn is_motion(about: About) -> bool
    ensures { result ≡ is_motion about }
{
    matches!(about, About::NotTried(_, _))
}

// As many more as a row reports.
fn with_motions(sum: u64, row: &Row) -> u64
    ensures { result ≡ with_motions sum row.now }
{
    if is_motion(row.about) {
        sum.saturating_add(row.count)
    } else {
        sum
    }
}

// How many motions weren't tried.
fn motions(rows: &[Row]) -> u64
    ensures { result ≡ motions rows.now }
{
    let mut sum: u64 = 0;
    for row in rows {
        sum = with_motions(sum, row);
    }
    sum
}

/// How many motions weren't tried in a run.
pub fn untried_motions(counts: &Counts) -> u64
    ensures { result ≡ motions (shown counts.now.told).rows }
{
    motions(counts.told.rows.as_slice())
}

// Appends from which line on no motion is tried, if there is one.
fn put_end(out: &mut Vec<u8>, end: Option<u32>) -> Result<(), NoMemory>
    ensures { OnOk result (out.new.items ≡ out.old.items ++ end_behind end) }
{
    match end {
        Some(line) => {
            put_before(out, b" and from line ", u64::from(line))?;
            put(out, b" on")
        }
        None => Ok(()),
    }
}

/// What stands behind the number of ways of a run: how many motions weren't tried, and from which line on none is.
///
/// Errors: want of memory.
pub fn behind_ways(alloc: Global, counts: &Counts) -> Result<Vec<u8>, NoMemory>
    ensures { IfOk result (λ text. text.items ≡ behind_ways (shown counts.now.told)) }
{
    let mut out = Vec::new(alloc);
    put_before(&mut out, b", not tried ", untried_motions(counts))?;
    put_end(&mut out, counts.told.end)?;
    Ok(out)
}
