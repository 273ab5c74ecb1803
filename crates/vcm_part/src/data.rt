//! A valid workpiece.

ghost use Rattle.std.specs.Prelude.{◌≡◌, is_some, IfOk, IfSome};
ghost use Rattle.vcm_spec.specs.Workpiece.{Workpiece, IsValid};
ghost use Rattle.vcm_part.specs.Tip.{with_tip, is_tip};
ghost use Rattle.vcm_part.specs.Blocks.{with_blocks, may_have};

use crate::inside::{are_blocks, is_some_met};
use std::alloc::Global;
use std::marker::Model;
use vcm_num::{MOST_BLOCKS, NoMemory, WIDEST_TIP};
use vcm_spec::{Block3, Bounds};

/// A valid workpiece on its machine, in micrometres of machine coordinates: at most 4,096 blocks, counted from 1, each coordinate of them
/// and of the limits at most 1,000,000,000 from 0, no low corner above its high one, a tip of at most 50,000 to each side, and home within
/// the limits, where the tip meets no block.
#[derive(Drop)]
pub struct PartData {
    bounds: Bounds,
    blocks: Vec<Block3>,
}

impl Model for PartData {
    ghost Value = { Workpiece };

    ghost view = { λ p. record { bounds = p.bounds; blocks = p.blocks.items } };

    ghost invariant = { λ p. IsValid (record { bounds = p.bounds; blocks = p.blocks.items }) };
}

impl PartData {
    pub(crate) fn new(bounds: Bounds, blocks: Vec<Block3>) -> PartData
        requires { IsValid (record { bounds = bounds; blocks = blocks.items }) }
        ensures { result ≡ record { bounds = bounds; blocks = blocks.items } }
    {
        PartData { bounds, blocks }
    }

    /// The limits of the machine, its home and its tip.
    pub fn bounds(&self) -> Bounds
        ensures bounds { result ≡ self.now.bounds }
        ensures valid { IsValid self.now }
    {
        self.bounds
    }

    /// The blocks of material: block 1 first.
    pub fn blocks(&self) -> &[Block3]
        ensures blocks { result.now ≡ self.now.blocks }
        ensures valid { IsValid self.now }
    {
        &self.blocks
    }

    /// The same workpiece with another tip, of `tip` micrometres to each side of its centre. None where it may not have that one: it is over 50,000, or
    /// meets a block at home.
    ///
    /// Errors: want of memory.
    pub fn with_tip(&self, alloc: Global, tip: u32) -> Result<Option<PartData>, NoMemory>
        ensures may { IfOk result (λ other. is_some other ≡ is_tip self.now tip) }
        ensures part { IfOk result (λ other. IfSome other (λ p. p ≡ with_tip tip self.now)) }
    {
        if tip > WIDEST_TIP || is_some_met(&self.blocks, tip, self.bounds.home) {
            return Ok(None);
        }
        let mut blocks = Vec::with_capacity(alloc, self.blocks.len())?;
        blocks.extend_from_slice(&self.blocks)?;
        let mut bounds = self.bounds;
        bounds.tip = tip;
        Ok(Some(PartData { bounds, blocks }))
    }

    /// The same machine and tip with other blocks. None where it may not have them: there are more than 4,096, a coordinate of one is more than
    /// 1,000,000,000 from 0 or a low one above the high one, or the tip meets one at home.
    pub fn with_blocks(&self, blocks: Vec<Block3>) -> Option<PartData>
        ensures may { is_some result ≡ may_have self.now blocks.items }
        ensures part { IfSome result (λ p. p ≡ with_blocks blocks.items self.now) }
    {
        if blocks.len() > MOST_BLOCKS
            || !are_blocks(&blocks)
            || is_some_met(&blocks, self.bounds.tip, self.bounds.home)
        {
            return None;
        }
        Some(PartData {
            bounds: self.bounds,
            blocks,
        })
    }
}
