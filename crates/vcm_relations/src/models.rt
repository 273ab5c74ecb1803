//! Blocks of models.

ghost use Rattle.std.specs.Prelude.{◌≤◌, length, option_map, IfOk};
ghost use Rattle.std.specs.String.{string_bytes};
ghost use Rattle.vcm_covering.specs.Covering.{Covers};
ghost use Rattle.vcm_cover.specs.Hollows.{LeavesNoHollow};
ghost use Rattle.vcm_cover.specs.Models.{corners};
ghost use Rattle.vcm_blocks.specs.Adding.{IsAdded};

use std::alloc::Global;
use vcm_blocks::{BlocksFault, BlocksOptions, Tells, Written, write_blocks};
use vcm_cover::{Asked, Cover, CoverFault, cover};
use vcm_mesh::Triangle;

/// Blocks that cover a model, leave no hollow and are no more than asked for; others might do too.
pub fn called_cover(
    alloc: Global,
    triangles: &[Triangle],
    asked: &Asked<'_>,
) -> Result<Cover, CoverFault>
    ensures covers { IfOk result (λ cover. Covers cover.blocks.items (corners triangles.now)) }
    ensures no_hollow { IfOk result (λ cover. LeavesNoHollow cover.blocks.items) }
    ensures few { IfOk result (λ cover. length cover.blocks.items ≤ asked.now.most) }
{
    cover(alloc, triangles, asked)
}

/// The part file with such blocks; they might be others, and the text laid out otherwise.
pub fn called_blocks<T: Tells>(
    alloc: Global,
    model: &[u8],
    part: Option<&[u8]>,
    points: Option<&[u8]>,
    options: &BlocksOptions<'_>,
    tells: &mut T,
) -> Result<Written, BlocksFault>
    ensures { IfOk result (λ w. IsAdded (option_map (λ p. p.now) part.entry) options.now.placing model.now (string_bytes w.text)) }
{
    write_blocks(alloc, model, part, points, options, tells)
}
