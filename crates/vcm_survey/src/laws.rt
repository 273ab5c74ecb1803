//! Laws of the definitions, each the contract of a function without a body.

ghost use Rattle.std.specs.Prelude.{◌≡◌, ℕ, List};
ghost use Rattle.vcm_lines.specs.declared.fault.SourceFault.{SourceFault};
ghost use Rattle.vcm_survey.specs.Faults.{AreFaults};

/// A text has its faults in one way: no other list of faults is that of the text.
pub fn faults_are_one()
    ensures { (text : List ℕ) (fs gs : List SourceFault) → AreFaults text fs → AreFaults text gs → fs ≡ gs }
{}
