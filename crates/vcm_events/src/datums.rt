//! Datums of points, and frames by their origins, said as statements that no text can write.

ghost use Rattle.std.specs.Prelude.{◌≡◌};
ghost use Rattle.vcm_forms.specs.Statements.{as_read};
ghost use Rattle.vcm_events.specs.Events.{event_name};
ghost use Rattle.vcm_events.specs.Datums.{coordinate_of, happens_to, bound, origin_on, origin_length, is_origin, are_origins};

use crate::event::Event;
use vcm_expr::{Expr, Term};
use vcm_forms::{Form, Offset, Target};
use vcm_items::Name;
use vcm_num::is;
use vcm_spec::{FeatureWord, FrameAxis, Source};

// The coordinate of a feature along an axis.
fn coordinate_of(axis: FrameAxis) -> FeatureWord
    ensures { result ≡ coordinate_of axis }
{
    match axis {
        FrameAxis::X => FeatureWord::X,
        FrameAxis::Y => FeatureWord::Y,
        FrameAxis::Z => FeatureWord::Z,
    }
}

// The variable of an event, as it is read.
fn target_of(event: Event) -> Target
    ensures { result ≡ as_read (event_name event) }
{
    Target {
        name: Name::new(event.name()),
        expansion: 0,
    }
}

/// Something happens to the frame or feature with this name.
pub fn happens_to(event: Event, name: Name) -> Form
    ensures { result ≡ happens_to event name }
{
    Form::Query(target_of(event), Source::Actual, name, FeatureWord::X)
}

/// A datum is defined as the feature with this name.
pub fn bound(feature: Name) -> Form
    ensures { result ≡ bound feature }
{
    happens_to(Event::Bind, feature)
}

/// The origin of a frame along an axis lies on the feature with this name.
pub fn origin_on(axis: FrameAxis, feature: Name) -> Form
    ensures { result ≡ origin_on axis feature }
{
    let word = coordinate_of(axis);
    Form::Query(target_of(Event::Origin), Source::Actual, feature, word)
}

/// The length of a shift to such an origin.
pub fn origin_length() -> Expr
    ensures { result ≡ origin_length }
{
    Expr::leaf(Term::Variable(Name::new(Event::Origin.name()), 0))
}

/// Whether a length is one to an origin.
pub fn is_origin(length: &Expr) -> bool
    ensures { result ≡ is_origin length.now }
{
    match length.as_leaf() {
        Some(Term::Variable(name, _)) => is(name.as_bytes(), Event::Origin.name()),
        _ => false,
    }
}

/// Whether shifts are those to origins.
pub fn are_origins(offsets: &[Offset]) -> bool
    ensures { result ≡ are_origins offsets.now }
{
    match offsets.first() {
        Some(offset) => is_origin(&offset.length),
        None => false,
    }
}
