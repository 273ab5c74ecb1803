//! Statements that are put one behind the other.

ghost use Rattle.std.specs.Prelude.{◌≡◌, ◌++◌, ◌∷◌, [], OnOk};
ghost use Rattle.vcm_given.specs.Chosen.{on_line};

use vcm_forms::{Form, Statement};
use vcm_num::NoMemory;

/// One statement more.
pub(crate) fn add(out: &mut Vec<Statement>, line: u32, form: Form) -> Result<(), NoMemory>
    ensures { OnOk result (out.new.items ≡ out.old.items ++ on_line line (form ∷ [])) }
{
    out.push(Statement { line, form })?;
    Ok(())
}
