//! Statements that are said one behind the other.

ghost use Rattle.std.specs.Prelude.{◌≡◌, ◌++◌, ◌∷◌, [], OnOk};
ghost use Rattle.vcm_events.specs.Events.{lost, gained};
ghost use Rattle.vcm_said.specs.Said.{turns};
ghost use Rattle.vcm_said.specs.All.{on_line};

use vcm_events::{Event, gained, lost};
use vcm_forms::{Form, Statement};
use vcm_num::NoMemory;

/// One statement more.
pub(crate) fn add(out: &mut Vec<Statement>, line: u32, form: Form) -> Result<(), NoMemory>
    ensures { OnOk result (out.new.items ≡ out.old.items ++ on_line line (form ∷ [])) }
{
    out.push(Statement { line, form })?;
    Ok(())
}

/// Something is lost.
pub(crate) fn loses(out: &mut Vec<Statement>, line: u32, event: Event) -> Result<(), NoMemory>
    ensures { OnOk result (out.new.items ≡ out.old.items ++ on_line line (lost event ∷ [])) }
{
    add(out, line, lost(event))
}

/// Something is known again, or happens.
pub(crate) fn gains(out: &mut Vec<Statement>, line: u32, event: Event) -> Result<(), NoMemory>
    ensures { OnOk result (out.new.items ≡ out.old.items ++ on_line line (gained event ∷ [])) }
{
    add(out, line, gained(event))
}

/// Something is lost, or known again.
pub(crate) fn turns(
    out: &mut Vec<Statement>,
    line: u32,
    event: Event,
    known: bool,
) -> Result<(), NoMemory>
    ensures { OnOk result (out.new.items ≡ out.old.items ++ on_line line (turns event known ∷ [])) }
{
    if known {
        gains(out, line, event)
    } else {
        loses(out, line, event)
    }
}
