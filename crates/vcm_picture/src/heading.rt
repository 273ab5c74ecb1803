//! The first line of the heading.

ghost use Rattle.std.specs.Prelude.{◌≡◌, IfOk};
ghost use Rattle.vcm_picture.specs.Heading.{first_line};

use std::alloc::Global;
use vcm_items::Tables;
use vcm_num::NoMemory;
use vcm_report::write_end_line;
use vcm_spec::StopPlace;

/// The first line of the heading: why the run stopped, or how many steps were done without a stop.
pub fn first_line(
    alloc: Global,
    tables: &Tables,
    stop: Option<StopPlace>,
    done: u64,
) -> Result<Vec<u8>, NoMemory>
    ensures { IfOk result (λ line. line.items ≡ first_line tables.now stop done) }
{
    let mut line = Vec::new(alloc);
    if write_end_line(tables, stop, done, &mut line).is_err() {
        return Err(NoMemory);
    }
    line.truncate(line.len().saturating_sub(1));
    Ok(line)
}
