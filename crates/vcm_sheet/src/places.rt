//! Arithmetic on places of a sheet that never leaves 64 bits.

ghost use Rattle.std.specs.Prelude.{◌≡◌, ◌*ℤ◌};
ghost use Rattle.vcm_svg.specs.Ranges.{IsSmall};
ghost use Rattle.vcm_sheet.specs.Ticks.{kept};

use vcm_svg::{BoundedSpot, Spot, Unit};

/// So many units.
pub(crate) fn units(count: i64, unit: Unit) -> i64
    ensures { result ≡ kept (count *ℤ unit) }
{
    count.saturating_mul(unit.get())
}

/// The place so far to the right of another one and below it.
pub(crate) fn moved(at: Spot, right: i64, down: i64) -> Spot {
    Spot {
        x: at.x.saturating_add(right),
        y: at.y.saturating_add(down),
    }
}

/// The most units of a picture.
const MOST: i64 = 1_099_511_627_776;

// A number that no place of a picture is beyond.
fn within(number: i64) -> i64
    ensures { IsSmall result }
{
    number.max(-MOST).min(MOST)
}

/// A place in a picture.
pub(crate) fn corner(x: i64, y: i64) -> BoundedSpot {
    BoundedSpot::new(Spot {
        x: within(x),
        y: within(y),
    })
}
