//! Which probe is on, and where the centre of its tip stands.

ghost use Rattle.std.specs.Prelude.{◌≡◌, ◌<◌, ◌+ℤ◌, ◌-ℤ◌, Some, IfSome, IsTrue, option_map, length};
ghost use Rattle.vcm_num.specs.Point.{coordinate, is_near};
ghost use Rattle.vcm_probe_set.specs.Probes.{IsProbe};
ghost use Rattle.vcm_turning.specs.Choosing.{is_whole, is_chooser, chooser, probe_on, has_number, is_held, place_of, put_at, turned_point, place_with};
ghost use Rattle.vcm_turning.specs.Machine.{HangsNear};

use vcm_items::Variable;
use vcm_num::{Kind, Point, is};
use vcm_probe_set::Probe;

// Whether a variable is one of whole numbers.
fn is_whole(kind: Kind) -> bool
    ensures { result ≡ is_whole kind }
{
    match kind {
        Kind::Int => true,
        Kind::Real => false,
        Kind::Bool => false,
    }
}

// Whether a variable is the one that chooses a probe.
fn is_chooser(name: &[u8], variable: &Variable) -> bool
    ensures { result ≡ is_chooser name.now variable.now }
{
    is_whole(variable.kind()) && variable.expansion() == 0 && is(variable.name().as_bytes(), name)
}

/// The place of the variable that chooses a probe: it has this name, is of whole numbers, and belongs to no macro.
pub fn chooser(name: &[u8], variables: &[Variable]) -> Option<usize>
    ensures { result ≡ chooser name.now variables.now }
{
    variables
        .iter()
        .position(|variable| is_chooser(name, variable))
}

/// The probe of a place, if there is one.
pub fn probe_on(probes: &[Probe], on: Option<usize>) -> Option<&Probe>
    ensures { option_map (λ p. p.now) result ≡ probe_on probes.now on }
{
    probes.get(on?)
}

// Whether a probe has the number.
fn has_number(value: i64, probe: &Probe) -> bool
    ensures { result ≡ has_number value (Some probe.now) }
{
    i64::from(probe.number()) == value
}

/// Whether the probe that is on has the number.
pub fn is_held(probes: &[Probe], on: Option<usize>, value: i64) -> bool
    ensures { result ≡ is_held probes.now on value }
{
    match probe_on(probes, on) {
        Some(probe) => has_number(value, probe),
        None => false,
    }
}

/// The place of the probe that has the number, if one has.
pub fn place_of(probes: &[Probe], value: i64) -> Option<usize>
    ensures { result ≡ place_of probes.now value }
{
    probes.iter().position(|probe| has_number(value, probe))
}

// The place of the probe that is put on at a number.
pub(crate) fn put_at(probes: &[Probe], on: Option<usize>, value: i64) -> Option<usize>
    ensures is { result ≡ put_at probes.now on value }
    ensures there { IfSome result (λ i. i < length probes.now) }
{
    if is_held(probes, on, value) {
        None
    } else {
        place_of(probes, value)
    }
}

// One coordinate of where the centre of the tip stands once the head has turned.
fn turned_coordinate(at: Point, old: Point, new: Point, axis: usize) -> i64
    requires axis { axis < 3 }
    requires at { IsTrue (is_near at) }
    requires old { IsTrue (is_near old) }
    requires new { IsTrue (is_near new) }
    ensures { result ≡ ((coordinate at axis +ℤ coordinate old axis) -ℤ coordinate new axis) }
{
    at.0[axis] + old.0[axis] - new.0[axis]
}

/// Where the centre of the tip stands once the head has turned about its pivot, which lies so far from the old centre and from the new one.
pub fn turned_point(at: Point, old: Point, new: Point) -> Point
    requires at { IsTrue (is_near at) }
    requires old { IsTrue (is_near old) }
    requires new { IsTrue (is_near new) }
    ensures { result ≡ turned_point at old new }
{
    Point::new(
        turned_coordinate(at, old, new, 0),
        turned_coordinate(at, old, new, 1),
        turned_coordinate(at, old, new, 2),
    )
}

// Where it stands with the second probe on behind the first, if one was on: that is near, and the second hangs near there.
pub(crate) fn place_with(at: Point, old: Option<&Probe>, new: &Probe) -> Point
    requires near { IsTrue (is_near at) }
    requires hangs { HangsNear (option_map (λ p. p.now) old) at }
    ensures place { result ≡ place_with at (option_map (λ p. p.now) old.entry) (Some new.now) }
    ensures near { IsTrue (is_near result) }
    ensures hangs { HangsNear (Some new.now) result }
    ensures valid { IsProbe new.now }
{
    let pivot = new.pivot();
    match old {
        None => at,
        Some(old) => turned_point(at, old.pivot(), pivot),
    }
}
