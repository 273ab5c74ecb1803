//! What is known of the machine in a state of a program that is put so.

ghost use Rattle.std.specs.Prelude.{◌≡◌};
ghost use Rattle.vcm_untried.specs.Known.{known_in, is_same};

use crate::causes::{FRAME, MODE, TABLE, is_lost, is_nought};
use crate::elsewhere::PLACE;

/// Whether the current frame, the mode, the table and the place of the probe are known.
#[derive(Clone, Copy)]
pub struct Known {
    pub frame: bool,
    pub mode: bool,
    pub table: bool,
    pub place: bool,
}

/// Whether they are where the variables have these values.
pub(crate) fn known_in(variables: &[i64]) -> Known
    ensures { result ≡ known_in variables.now }
{
    Known {
        frame: !is_nought(variables, FRAME),
        mode: !is_lost(variables, MODE),
        table: !is_lost(variables, TABLE),
        place: !is_nought(variables, PLACE),
    }
}

/// Whether the same is known.
pub(crate) fn is_same(one: Known, other: Known) -> bool
    ensures { result ≡ is_same one other }
{
    one.frame == other.frame
        && one.mode == other.mode
        && one.table == other.table
        && one.place == other.place
}
