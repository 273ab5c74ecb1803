//! Laws of the definitions, each the contract of a function without a body.

ghost use Rattle.vcm_part.specs.Laws.{OtherBytesAreRefused, OtherTextsAreRefused, TablesDecide, PartsAreValid, BytesTakeNoMemory, OneAnswer};
ghost use Rattle.vcm_part.specs.Samples.{NoBlocks, OneBlock, TwoBlocks, TipClear, TipOnBlock, TipTooWide, TipNoNumber, HomeOnAnEdge, TooFar, NoWholeNumber, LowAbove, Fixed, FixedByANumber};

/// The table that the bytes' TOML text denotes decides what a part file gives; other bytes are refused.
pub fn tables_decide()
    ensures bytes { OtherBytesAreRefused }
    ensures texts { OtherTextsAreRefused }
    ensures tables { TablesDecide }
{}

/// What the bytes of a part file give is a valid workpiece.
pub fn parts_are_valid()
    ensures { PartsAreValid }
{}

/// The bytes of a part file give one answer, which isn't want of memory.
pub fn part_files_give_one_answer()
    ensures one { OneAnswer }
    ensures memory { BytesTakeNoMemory }
{}

/// Worked examples.
pub fn part_examples()
    ensures no_blocks { NoBlocks }
    ensures one_block { OneBlock }
    ensures two_blocks { TwoBlocks }
    ensures home_on_an_edge { HomeOnAnEdge }
    ensures tip_clear { TipClear }
    ensures tip_on_block { TipOnBlock }
    ensures tip_too_wide { TipTooWide }
    ensures tip_no_number { TipNoNumber }
    ensures too_far { TooFar }
    ensures no_whole_number { NoWholeNumber }
    ensures low_above { LowAbove }
    ensures fixed { Fixed }
    ensures fixed_by_a_number { FixedByANumber }
{}
