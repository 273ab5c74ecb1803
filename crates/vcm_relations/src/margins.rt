//! How wide the tip may be.

ghost use Rattle.std.specs.Prelude.{IfOk};
ghost use Rattle.vcm_margin.specs.Margin.{IsMargin};

use std::alloc::Global;
use vcm_loader::Loaded;
use vcm_margin::{Margin, margin};
use vcm_num::NoMemory;
use vcm_part::PartData;

/// The greatest width with which a run that comes to its end goes as it does; of other runs a greater one might do too.
pub fn called_margin(
    alloc: Global,
    loaded: &Loaded<'_>,
    part: &PartData,
    steps: u64,
) -> Result<Margin, NoMemory>
    ensures { IfOk result (IsMargin part.now loaded.now steps) }
{
    margin(alloc, loaded, part, steps)
}
