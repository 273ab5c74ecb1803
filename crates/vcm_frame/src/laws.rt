//! Laws of frames, each the contract of a function without a body.

ghost use Rattle.vcm_frame.specs.Laws.{ThereAndBack, BackAndThere};

/// Inverting undoes applying, and applying undoes inverting: where the first of them doesn't overflow, the second doesn't either, and gives the
/// point that was there before.
pub fn invert_and_apply_undo()
    ensures there_and_back { ThereAndBack }
    ensures back_and_there { BackAndThere }
{}
