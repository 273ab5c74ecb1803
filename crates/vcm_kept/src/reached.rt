//! Blocks that are open.

ghost use Rattle.std.specs.Prelude.{◌≡◌};
ghost use Rattle.vcm_kept.specs.Guarding.{opened, with_effects};

use crate::effects::Effects;
use vcm_items::BoundedStack;
use vcm_num::DEEPEST_BLOCKS;

/// The greatest depth that is told apart: deeper blocks are refused.
pub const MOST_DEPTH: u16 = 32;

/// A block that is open, by the line that opens it: that of a choice, or the body of a loop whose variable stands at an index; how deep it is, how many variables
/// were set before it, and what its statements may do.
#[derive(Clone, Copy, Default)]
pub struct OpenBlock {
    pub line: u32,
    pub index: Option<u16>,
    pub depth: u16,
    pub since: usize,
    pub effects: Effects,
}

/// One more block is open; deeper ones are refused.
pub(crate) fn begin_block(blocks: &mut BoundedStack<OpenBlock>, block: OpenBlock)
    ensures { blocks.new ≡ opened block blocks.old }
{
    if blocks.len() < DEEPEST_BLOCKS {
        blocks.push(block);
    }
}

/// What may be done in the innermost block that is open, if one is.
pub(crate) fn note_effects(blocks: &mut BoundedStack<OpenBlock>, effects: Effects)
    ensures { blocks.new ≡ with_effects effects blocks.old }
{
    if blocks.len() > 0 {
        let mut block = blocks.top();
        block.effects = block.effects.or(effects);
        blocks.replace_top(block);
    }
}
