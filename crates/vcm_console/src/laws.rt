//! Laws of the reading of an input, each the contract of a function without a body.

ghost use Rattle.vcm_console.specs.Laws.{BytesAreOne, LinesAreOne};

/// An input has one next byte, or none, unless its device fails.
pub fn bytes_are_one()
    ensures { BytesAreOne }
{}

/// An input has one first line, or none, or too much of it, unless its device fails.
pub fn lines_are_one()
    ensures { LinesAreOne }
{}
