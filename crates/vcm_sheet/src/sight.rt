//! What of a view is in sight.

ghost use Rattle.std.specs.Prelude.{◌≡◌};
ghost use Rattle.vcm_picture.specs.View.{spot_of};
ghost use Rattle.vcm_sheet.specs.Sight.{lies_across, lies_down, in_frame, crosses_across, crosses_down, crosses, is_seen, in_sight};

use vcm_num::Point;
use vcm_picture::{Scope, Tip, spot_of};
use vcm_svg::Spot;

// Whether a place lies between the left and the right side of a frame.
fn lies_across(scope: Scope, at: Spot) -> bool
    ensures { result ≡ lies_across scope at }
{
    0 <= at.x && at.x <= scope.wide().get()
}

// Whether a place lies between the upper and the lower side of a frame.
fn lies_down(scope: Scope, at: Spot) -> bool
    ensures { result ≡ lies_down scope at }
{
    0 <= at.y && at.y <= scope.high().get()
}

// Whether a place lies in a frame.
fn in_frame(scope: Scope, at: Spot) -> bool
    ensures { result ≡ in_frame scope at }
{
    lies_across(scope, at) && lies_down(scope, at)
}

// Whether one of two corners lies between the left and the right side of a frame.
fn crosses_across(scope: Scope, a: Spot, b: Spot) -> bool
    ensures { result ≡ crosses_across scope a b }
{
    lies_across(scope, a) || lies_across(scope, b)
}

// Whether one of two corners lies between the upper and the lower side of a frame.
fn crosses_down(scope: Scope, a: Spot, b: Spot) -> bool
    ensures { result ≡ crosses_down scope a b }
{
    lies_down(scope, a) || lies_down(scope, b)
}

// Whether an edge of what lies between two corners lies between two sides of a frame.
fn crosses(scope: Scope, a: Spot, b: Spot) -> bool
    ensures { result ≡ crosses scope a b }
{
    crosses_across(scope, a, b) || crosses_down(scope, a, b)
}

// Whether a point is in sight.
fn is_seen(scope: Scope, at: Point) -> bool
    ensures { result ≡ is_seen scope at }
{
    in_frame(scope, spot_of(scope, at).spot())
}

// Whether one of the limits with these corners lies between two sides of a frame.
fn is_crossed(scope: Scope, low: Point, high: Point) -> bool
    ensures { result ≡ crosses scope (spot_of scope low) (spot_of scope high) }
{
    crosses(
        scope,
        spot_of(scope, low).spot(),
        spot_of(scope, high).spot(),
    )
}

/// Whether what a tooltip tells is in sight: a point if it lies in the frame, the limits if one of them lies between two sides; pieces and blocks always.
pub(crate) fn in_sight(scope: Scope, tip: Tip) -> bool
    ensures { result ≡ in_sight scope tip }
{
    match tip {
        Tip::Block(_, _) => true,
        Tip::Leg(_, _) => true,
        Tip::Touched(_, touched) => is_seen(scope, touched.at),
        Tip::Limits(low, high) => is_crossed(scope, low, high),
        Tip::Home(at) => is_seen(scope, at),
        Tip::End(at) => is_seen(scope, at),
        Tip::TipAtEnd => false,
        Tip::TipAtContact => false,
        Tip::Contact(contact) => is_seen(scope, contact.at),
    }
}
