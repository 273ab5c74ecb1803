//! Laws of the definitions, each the contract of a function without a body.

ghost use Rattle.vcm_macro.specs.Laws.{ComputedIsFirst, NoneIsClean, ExpandedIsNotRefused, IsRefusedOnce, IsExpandedOnce};

/// The first fault of a program's macros, as it is computed, is the first fault of the walk, and where none is computed there is none.
pub fn macro_faults_are_computed()
    ensures fault { ComputedIsFirst }
    ensures clean { NoneIsClean }
{}

/// No program is both expanded and refused, and it has one refusal or one expansion.
pub fn programs_have_one_answer()
    ensures either { ExpandedIsNotRefused }
    ensures refusal { IsRefusedOnce }
    ensures expansion { IsExpandedOnce }
{}
