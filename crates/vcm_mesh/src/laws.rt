//! Worked examples of the definitions, the contract of a function without a body.

ghost use Rattle.vcm_mesh.specs.Samples.{NearestMicrometre, Infinite, HalfAway, OneInch, FarAway, OneFacet, Turned, Cut, NoNumberThere, Beyond, Nothing, Other};

/// Worked examples.
pub fn mesh_examples()
    ensures nearest_micrometre { NearestMicrometre }
    ensures infinite { Infinite }
    ensures half_away { HalfAway }
    ensures one_inch { OneInch }
    ensures far_away { FarAway }
    ensures one_facet { OneFacet }
    ensures turned { Turned }
    ensures cut { Cut }
    ensures no_number_there { NoNumberThere }
    ensures beyond { Beyond }
    ensures nothing { Nothing }
    ensures other { Other }
{}
