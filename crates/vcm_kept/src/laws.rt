//! Laws of the definitions, each the contract of a function without a body.

ghost use Rattle.vcm_kept.specs.Laws.{EachIsOnItsLine, AllAreOnLinesOfTheText};

/// What a statement is put as has its line, but for what was lost in a block, which is told at the line that opens the block; and no other line comes in, but the first.
pub fn lines_are_kept()
    ensures each { EachIsOnItsLine }
    ensures all { AllAreOnLinesOfTheText }
{}
