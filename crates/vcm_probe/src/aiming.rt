//! Where a measurement aims.

ghost use Rattle.std.specs.Prelude.{◌≡◌, ℕ, ℤ, IfSome, IfNone};
ghost use Rattle.vcm_num.specs.Point.{coordinate};
ghost use Rattle.vcm_spec.specs.Touch.{centre_of};
ghost use Rattle.vcm_spec.specs.FirstTouch.{touch};
ghost use Rattle.vcm_spec.specs.Outcome.{Stops};
ghost use Rattle.vcm_spec.specs.declared.stop.Stop.TheVariants.{Overflow};
ghost use Rattle.vcm_probe.specs.Aims.{AreAimed};

use crate::reach::reached;
use crate::settings::Settings;
use vcm_motion::Part;
use vcm_num::{Axis, Point};

/// The approach point of a measurement and the end of its search, in micrometres. Both are places of the tip's centre.
#[derive(Clone, Copy)]
pub struct Aims {
    pub approach: Point,
    pub end: Point,
}

/// The aims of a measurement of a nominal point, to which the tip comes from the direction `toward`, where their coordinates fit 64 bits: they
/// don't, exactly where a touch there stops with `Overflow` before it moves.
pub fn aims_of<P: Part>(part: &P, nominal: Point, toward: Axis, settings: Settings) -> Option<Aims>
    ensures some { IfSome result (λ a. AreAimed settings (centre_of (P.part part.now) (coordinate nominal) toward) toward a.approach a.end) }
    ensures none { IfNone result ((from : ℕ → ℤ) → touch (P.part part.now) settings from (coordinate nominal) toward ≡ Stops Overflow) }
{
    let up = part.bounds().tip + settings.approach();
    let approach = reached(nominal, toward, up)?;
    let end = reached(approach, toward.opposite(), settings.descent())?;
    Some(Aims { approach, end })
}
