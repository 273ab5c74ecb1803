//! What of the legend a sheet shows.

ghost use Rattle.std.specs.Prelude.{◌≡◌, if◌then◌else◌};
ghost use Rattle.vcm_sheet.specs.Sight.{in_sight};
ghost use Rattle.vcm_sheet.specs.Legend.{with_class, with_told, with_shape, used_in};

use crate::sight::in_sight;
use vcm_picture::{Scope, Shape, Tip};
use vcm_svg::Class;

/// Which marks stand in some shapes.
#[derive(Clone, Copy)]
pub struct Used {
    pub moves: bool,
    pub approach: bool,
    pub search: bool,
    pub retract: bool,
    pub rest: bool,
    pub elsewhere: bool,
    pub touched: bool,
    pub end: bool,
    pub home: bool,
    pub contact: bool,
    pub limits: bool,
    pub hidden: bool,
}

// With what a path of this class shows.
fn with_class(used: Used, class: Class) -> Used
    ensures { result ≡ with_class used class }
{
    match class {
        Class::Move => Used {
            moves: true,
            ..used
        },
        Class::Arrow => Used {
            moves: true,
            ..used
        },
        Class::Approach => Used {
            approach: true,
            ..used
        },
        Class::Search => Used {
            search: true,
            ..used
        },
        Class::Retract => Used {
            retract: true,
            ..used
        },
        Class::Rest => Used { rest: true, ..used },
        Class::Elsewhere => Used {
            elsewhere: true,
            ..used
        },
        Class::Touched => Used {
            touched: true,
            ..used
        },
        Class::Cross => Used {
            contact: true,
            ..used
        },
        Class::Limits => Used {
            limits: true,
            ..used
        },
        Class::Hidden => Used {
            hidden: true,
            ..used
        },
        Class::Place => used,
        Class::Sheet => used,
        Class::Frame => used,
        Class::Block => used,
        Class::Hit => used,
        Class::Tip => used,
    }
}

// With what a path shows whose tooltip tells this: home and the end have one class.
fn with_told(used: Used, class: Class, tip: Tip) -> Used
    ensures { result ≡ with_told used class tip }
{
    match tip {
        Tip::Home(_) => Used { home: true, ..used },
        Tip::End(_) => Used { end: true, ..used },
        Tip::Block(_, _) => with_class(used, class),
        Tip::Leg(_, _) => with_class(used, class),
        Tip::Touched(_, _) => with_class(used, class),
        Tip::Limits(_, _) => with_class(used, class),
        Tip::TipAtEnd => with_class(used, class),
        Tip::TipAtContact => with_class(used, class),
        Tip::Contact(_) => with_class(used, class),
    }
}

// The same, if it is in sight.
fn with_seen(scope: Scope, used: Used, class: Class, tip: Tip) -> Used
    ensures { result ≡ (if in_sight scope tip then with_told used class tip else used) }
{
    if in_sight(scope, tip) {
        with_told(used, class, tip)
    } else {
        used
    }
}

// With what a shape shows, if it is in sight.
fn with_shape(scope: Scope, used: Used, shape: &Shape) -> Used
    ensures { result ≡ with_shape scope used shape.now }
{
    match shape {
        Shape::Told(class, _, tip) => with_seen(scope, used, *class, *tip),
        Shape::Path(_, _) => used,
        Shape::Text(_, _) => used,
    }
}

/// Which marks stand in some shapes of a view, or did before them.
pub fn used_in(scope: Scope, before: Used, shapes: &[Shape]) -> Used
    ensures { result ≡ used_in scope before shapes.now }
{
    let mut used = before;
    for shape in shapes {
        used = with_shape(scope, used, shape);
    }
    used
}

/// None of them.
pub(crate) const NONE: Used = Used {
    moves: false,
    approach: false,
    search: false,
    retract: false,
    rest: false,
    elsewhere: false,
    touched: false,
    end: false,
    home: false,
    contact: false,
    limits: false,
    hidden: false,
};
