//! What a step did besides its statement.

use vcm_num::Point;

/// Behind a step: where the centre of the tip stood, and the place of the probe that was put on there, if one was.
#[derive(Clone, Copy)]
pub struct Turn {
    pub stood: Point,
    pub put: Option<usize>,
}
