//! What of a text hangs on how a machine counts and reads it, and is taken in one way.

ghost use Rattle.std.specs.Prelude.{◌≡◌, IfOk};
ghost use Rattle.vcm_whole.specs.Readings.{readings_of};

use std::alloc::Global;
use vcm_doubts::{borrowed_lines, compared_lines};
use vcm_forms::Statement;
use vcm_kept::may_cut;
use vcm_lines::Logical;
use vcm_num::{Items, NoMemory};

/// What of a text hangs on how a machine counts and reads it, and is taken in one way.
#[derive(Drop)]
pub struct Readings {
    /// The lines that compare what is reckoned of decimals, in order: exact decimals are compared, where a machine may have a little more or less.
    pub compared: Items<u32>,
    /// The lines within macros that use variables of the main program, in order: some machines don't see these there.
    pub borrowed: Items<u32>,
    /// Whether a value may be cut off: it lies a thousandth beside the machine's then.
    pub is_cut: bool,
}

/// What statements of a text say so.
pub(crate) fn readings_of(
    alloc: Global,
    lines: &[Logical],
    statements: &[Statement],
) -> Result<Readings, NoMemory>
    ensures { IfOk result (λ r. r ≡ readings_of lines.now statements.now) }
{
    let compared = compared_lines(alloc, statements)?;
    let borrowed = borrowed_lines(alloc, lines, statements)?;
    Ok(Readings {
        compared,
        borrowed,
        is_cut: may_cut(statements),
    })
}
