//! What is reported of the steps of a run.

ghost use Rattle.std.specs.Prelude.{◌≡◌, OnOk};
ghost use Rattle.vcm_untried.specs.Telling.{shown, told_by, first_line};
ghost use Rattle.vcm_untried.specs.inner.Short.{AreBelow};

use crate::about::About;
use crate::causes::{Losses, line_of, lose, named};
use crate::rows::{Row, add};
use vcm_num::NoMemory;
use vcm_remarks::{Cause, NumberedRemark, Remark};

/// What is reported of the steps of a run.
#[derive(Drop)]
pub struct Told {
    /// The line at which each cause came about last.
    pub lost: Losses,
    /// What is reported of each line, by the order of the lines.
    pub rows: Vec<Row>,
    /// The line from which on nothing is tried, if the run came to it.
    pub end: Option<u32>,
}

// The line that was there first.
fn first_line(end: Option<u32>, line: u32) -> Option<u32>
    ensures { result ≡ first_line end line }
{
    match end {
        Some(first) => Some(first),
        None => Some(line),
    }
}

/// A statement with a remark is carried out, where a motion that isn't tried isn't for this cause.
///
/// Errors: want of memory.
pub(crate) fn tell(told: &mut Told, remark: &NumberedRemark, cause: Cause) -> Result<(), NoMemory>
    ensures { OnOk result (AreBelow told.old.rows.items → shown told.new ≡ told_by (shown told.old) remark.now cause) }
{
    let line = remark.line;
    match remark.remark {
        Remark::NotTried => {
            let since = line_of(&told.lost, cause);
            add(
                &mut told.rows,
                About::NotTried(named(&told.lost, cause), since),
                line,
            )
        }
        Remark::Approached => add(&mut told.rows, About::Approached, line),
        Remark::BeginsElsewhere => add(&mut told.rows, About::BeginsElsewhere, line),
        Remark::NotReported => add(&mut told.rows, About::NotReported, line),
        Remark::AnotherTip => add(&mut told.rows, About::AnotherTip, line),
        Remark::NotInFile => add(&mut told.rows, About::NotInFile, line),
        Remark::Loses(cause) => {
            lose(&mut told.lost, cause, line);
            Ok(())
        }
        Remark::Ends => {
            told.end = first_line(told.end, line);
            Ok(())
        }
    }
}
