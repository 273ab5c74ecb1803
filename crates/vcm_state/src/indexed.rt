//! Values that stand at an index, some of them not there yet.

ghost use Rattle.std.specs.Prelude.{◌≡◌, pos, replicate, None, IfOk};
ghost use Rattle.vcm_spec.specs.Effect.{at_index};

use std::alloc::Global;
use vcm_num::{Items, NoMemory};

/// So many zeros.
///
/// Errors: want of memory.
pub(crate) fn zeros(alloc: Global, count: usize) -> Result<Items<i64>, NoMemory>
    ensures { IfOk result (λ values. values ≡ replicate count (pos 0)) }
{
    let values = vec![in alloc; 0; count]?;
    Ok(Items::from_vec(values))
}

/// So many places with nothing there.
///
/// Errors: want of memory.
pub(crate) fn nones<T: Copy>(alloc: Global, count: usize) -> Result<Items<Option<T>>, NoMemory>
    ensures { IfOk result (λ places. places ≡ replicate count None) }
{
    let places = vec![in alloc; None; count]?;
    Ok(Items::from_vec(places))
}

/// What stands at an index, if anything does.
pub(crate) fn kept<T: Copy>(places: &Items<Option<T>>, at: u16) -> Option<T>
    ensures { result ≡ at_index places.now at }
{
    match places.get(usize::from(at)) {
        Some(place) => *place,
        None => None,
    }
}
