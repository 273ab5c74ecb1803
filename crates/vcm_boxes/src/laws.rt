//! Laws of the definitions, each the contract of a function without a body.

ghost use Rattle.vcm_boxes.specs.Laws.{OneAnswer};
ghost use Rattle.vcm_boxes.specs.Samples.{OneBox, SameName, TipBelow, Boxes, OddKey, Nothing, Empty, Millimetres, Above};

/// The bytes of a probe file give one answer, want of memory apart.
pub fn probe_files_give_one_answer()
    ensures { OneAnswer }
{}

/// Worked examples.
pub fn probe_file_examples()
    ensures one_box { OneBox }
    ensures same_name { SameName }
    ensures tip_below { TipBelow }
    ensures boxes { Boxes }
    ensures odd_key { OddKey }
    ensures nothing { Nothing }
    ensures empty { Empty }
    ensures millimetres { Millimetres }
    ensures above { Above }
{}
