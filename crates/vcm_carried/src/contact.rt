//! What is told of a contact.

use vcm_num::Point;
use vcm_spec::Hit;

/// The block that a carried box meets first, with the thousandths of the way before it, and where the centre of the tip stands there.
#[derive(Clone, Copy)]
pub struct Contact {
    pub hit: Hit,
    pub at: Point,
}
