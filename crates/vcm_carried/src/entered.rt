//! Blocks in the order in which a box enters them.

ghost use Rattle.vcm_carried.specs.inner.Shared.{IsSooner};

use crate::fraction::Fraction;

/// A block, by its place in the list, and where on a way it is entered.
#[derive(Clone, Copy)]
pub(crate) struct Entered {
    pub(crate) index: usize,
    pub(crate) at: Fraction,
}

/// The one that is entered first, where the next stands behind the first so far; of two that are entered at one fraction the one that stands first.
pub(crate) fn sooner(first: Option<Entered>, next: Entered) -> Entered
    ensures { IsSooner first next result }
{
    match first {
        Some(first) => {
            if next.at.is_before(first.at) {
                next
            } else {
                first
            }
        }
        None => next,
    }
}
