//! Laws of the definitions, each the contract of a function without a body.

ghost use Rattle.vcm_probe_set.specs.Laws.{OneAnswer};
ghost use Rattle.vcm_probe_set.specs.Samples.{OneProbe, OtherVariable, SameNumber, NoSwing, NoLow, OtherKey, OneBody, IsSeveral, IsOne};

/// The bytes of a probe file of several probes give one answer, want of memory apart.
pub fn probe_sets_give_one_answer()
    ensures { OneAnswer }
{}

/// Worked examples.
pub fn probe_set_examples()
    ensures one_probe { OneProbe }
    ensures other_variable { OtherVariable }
    ensures same_number { SameNumber }
    ensures no_swing { NoSwing }
    ensures no_low { NoLow }
    ensures other_key { OtherKey }
    ensures one_body { OneBody }
    ensures is_several { IsSeveral }
    ensures is_one { IsOne }
{}
