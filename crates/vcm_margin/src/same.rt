//! Stops and features that are the same.

ghost use Rattle.std.specs.Prelude.{◌≡◌, ◌≢◌, true, false};

use vcm_spec::{Feature, Hit, Missing, MovePhase, Stop, StopPlace};

// Whether two parts of a motion are the same.
fn is_same_phase(one: MovePhase, other: MovePhase) -> bool
    ensures yes { result ≡ true → one ≡ other }
    ensures no { result ≡ false → one ≢ other }
{
    one == other
}

// Whether two hits are.
fn is_same_hit(one: Hit, other: Hit) -> bool
    ensures yes { result ≡ true → one ≡ other }
    ensures no { result ≡ false → one ≢ other }
{
    one == other
}

// Whether the same isn't there.
fn is_same_missing(one: Missing, other: Missing) -> bool
    ensures yes { result ≡ true → one ≡ other }
    ensures no { result ≡ false → one ≢ other }
{
    one == other
}

// Whether two reasons to stop are the same. A derived comparison costs the prover far more.
fn is_same_reason(one: Stop, other: Stop) -> bool
    ensures yes { result ≡ true → one ≡ other }
    ensures no { result ≡ false → one ≢ other }
{
    match one {
        Stop::Ended => matches!(other, Stop::Ended),
        Stop::Collision(phase, hit) => match other {
            Stop::Collision(part, met) => is_same_phase(phase, part) && is_same_hit(hit, met),
            _ => false,
        },
        Stop::Missed => matches!(other, Stop::Missed),
        Stop::Travel(phase) => match other {
            Stop::Travel(part) => is_same_phase(phase, part),
            _ => false,
        },
        Stop::Overflow => matches!(other, Stop::Overflow),
        Stop::DivZero => matches!(other, Stop::DivZero),
        Stop::ZeroStep => matches!(other, Stop::ZeroStep),
        Stop::Undefined(what) => match other {
            Stop::Undefined(missing) => is_same_missing(what, missing),
            _ => false,
        },
        Stop::BadSetting => matches!(other, Stop::BadSetting),
        Stop::OutputFull => matches!(other, Stop::OutputFull),
    }
}

// Whether two stops are the same, with their places.
fn is_same_place(one: StopPlace, other: StopPlace) -> bool
    ensures yes { result ≡ true → one ≡ other }
    ensures no { result ≡ false → one ≢ other }
{
    one.number == other.number && one.line == other.line && is_same_reason(one.stop, other.stop)
}

/// Whether two runs have stopped alike, or neither has.
pub(crate) fn is_same_stop(one: Option<StopPlace>, other: Option<StopPlace>) -> bool
    ensures yes { result ≡ true → one ≡ other }
    ensures no { result ≡ false → one ≢ other }
{
    match one {
        None => other.is_none(),
        Some(one) => match other {
            None => false,
            Some(other) => is_same_place(one, other),
        },
    }
}

// Whether two features are the same.
fn is_same_point(one: Feature, other: Feature) -> bool
    ensures yes { result ≡ true → one ≡ other }
    ensures no { result ≡ false → one ≢ other }
{
    one.at.0[0] == other.at.0[0]
        && one.at.0[1] == other.at.0[1]
        && one.at.0[2] == other.at.0[2]
        && one.toward == other.toward
}

/// Whether two features are measured alike, or neither is.
pub(crate) fn is_same_feature(one: Option<Feature>, other: Option<Feature>) -> bool
    ensures yes { result ≡ true → one ≡ other }
    ensures no { result ≡ false → one ≢ other }
{
    match one {
        None => other.is_none(),
        Some(one) => match other {
            None => false,
            Some(other) => is_same_point(one, other),
        },
    }
}
