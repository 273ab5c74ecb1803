//! Names by their indexes.

ghost use Rattle.std.specs.Prelude.{◌≡◌};
ghost use Rattle.vcm_report.specs.Printed.{name_at};

use vcm_items::Name;

/// The name at an index; none where the names end before it.
pub fn name_at(names: &[Name], index: u16) -> &[u8]
    ensures { result.now ≡ name_at names.now index }
{
    match names.get(index as usize) {
        Some(name) => name.as_bytes(),
        None => &[],
    }
}
