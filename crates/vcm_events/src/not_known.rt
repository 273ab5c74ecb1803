//! What isn't known.

ghost use Rattle.std.specs.Prelude.{◌≡◌, codes};
ghost use Rattle.vcm_events.specs.Unknown.{unknown, unknown_place, unknown_rounds};

use vcm_expr::{Expr, Term};
use vcm_forms::{Coordinates, Rounds, Target};
use vcm_items::Name;

// The name that stands for what isn't known.
fn unknown_name() -> Name
    ensures { result ≡ codes "0" }
{
    Name::new(b"0")
}

/// An expression whose value isn't known.
pub fn unknown() -> Expr
    ensures { result ≡ unknown }
{
    Expr::leaf(Term::Variable(unknown_name(), 0))
}

/// A place that isn't known.
pub fn unknown_place() -> Coordinates
    ensures { result ≡ unknown_place }
{
    Coordinates {
        x: unknown(),
        y: unknown(),
        z: unknown(),
    }
}

/// Rounds that aren't known.
pub fn unknown_rounds() -> Rounds
    ensures { result ≡ unknown_rounds }
{
    Rounds {
        variable: Target {
            name: unknown_name(),
            expansion: 0,
        },
        initial: unknown(),
        limit: unknown(),
        increment: None,
    }
}
