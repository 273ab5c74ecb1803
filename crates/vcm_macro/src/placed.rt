//! Statements of an expanded program.

use vcm_forms::Statement;

/// A statement of an expanded program, and the number of the expansion that it stands in, 0 outside macros.
#[derive(Drop)]
pub struct Placed {
    pub statement: Statement,
    pub expansion: u32,
}
