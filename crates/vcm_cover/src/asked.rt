//! What is asked of a cover, and what is answered.

use vcm_boxing::NearPoint;
use vcm_spec::Block3;

/// What is asked of a cover: how far a block may reach beyond the model on each axis, in micrometres, the most blocks, the points near which it is finer,
/// and half the width of the tip, in micrometres.
#[derive(Clone, Copy)]
pub struct Asked<'a> {
    pub within: u32,
    pub most: usize,
    pub near: &'a [NearPoint],
    pub half: u32,
}

/// Blocks that cover a model and leave no hollow.
#[derive(Drop)]
pub struct Cover {
    pub blocks: Vec<Block3>,
}
