//! Laws of the definitions, each the contract of a function without a body.

ghost use Rattle.vcm_covering.specs.Parting.{DirectionsPart, OpenDirectionsPart};
ghost use Rattle.vcm_covering.specs.Safety.{Safe};

/// A direction along which a box lies before the corners of a triangle keeps the two apart.
pub fn directions_part()
    ensures { DirectionsPart }
{}

/// So does one along which the box reaches just up to them, where an end of the box that the direction points to is open.
pub fn open_directions_part()
    ensures { OpenDirectionsPart }
{}

/// Where blocks cover triangles, a move that meets no block meets no triangle, at any fraction of the way.
pub fn blocks_are_safe()
    ensures { Safe }
{}
