//! Places that are kept for later, steps from the probe's place, and slanted points, said as statements whose names no text can write.

ghost use Rattle.std.specs.Prelude.{◌≡◌, IfOk};
ghost use Rattle.vcm_events.specs.Spots.{spot_name, spot_named, spotted, slanted_name, leg, slanted, pointed, tip_said};

use crate::joined::{length, whole};
use std::alloc::Global;
use vcm_expr::Expr;
use vcm_forms::{Coordinates, Form, Offset};
use vcm_items::Name;
use vcm_num::{Axis, Items, NoMemory, look_up};
use vcm_spec::FrameAxis;

/// What a place in a statement of a producer's text is, where it isn't gone to at once. It is said as a FEAT of a name that no text can write.
#[derive(Clone, Copy)]
pub enum Spot {
    /// Where GOHOME goes to.
    Home,
    /// Where ENDGO goes to.
    Target,
    /// How far the probe goes from where it stands.
    Step,
    /// How far it goes the other way.
    Back,
}

impl Spot {
    /// The name of its feature.
    pub fn name(self) -> &'static [u8]
        ensures { result.now ≡ spot_name self }
    {
        match self {
            Spot::Home => b"0HOME",
            Spot::Target => b"0TARGET",
            Spot::Step => b"0STEP",
            Spot::Back => b"0BACK",
        }
    }

    /// What the feature with this name stands for.
    pub fn named(name: &[u8]) -> Option<Spot>
        ensures { result ≡ spot_named name.now }
    {
        look_up(
            &[
                (b"0HOME", Spot::Home),
                (b"0TARGET", Spot::Target),
                (b"0STEP", Spot::Step),
                (b"0BACK", Spot::Back),
            ],
            name,
        )
    }
}

/// A place that is none to go to at once, as a statement.
pub fn spotted(spot: Spot, place: Coordinates) -> Form
    ensures { result ≡ spotted spot place }
{
    Form::Feature(Name::new(spot.name()), place, Axis::PlusZ)
}

/// The name of the frame that slanted points are said by.
pub fn slanted_name() -> Name
    ensures { result ≡ slanted_name }
{
    Name::new(b"0SLANTED")
}

// A shift along an axis.
fn leg(axis: FrameAxis, length: Expr) -> Offset
    ensures { result ≡ leg axis length }
{
    Offset { axis, length }
}

/// A slanted point: its place, and its direction in thousandths.
///
/// # Errors
///
/// Out of memory.
pub fn slanted(
    alloc: Global,
    place: Coordinates,
    direction: (i32, i32, i32),
) -> Result<Form, NoMemory>
    ensures { IfOk result (λ f. f ≡ slanted place direction.0 direction.1 direction.2) }
{
    let mut legs = Items::new(alloc);
    legs.push(leg(FrameAxis::X, place.x))?;
    legs.push(leg(FrameAxis::Y, place.y))?;
    legs.push(leg(FrameAxis::Z, place.z))?;
    legs.push(leg(FrameAxis::X, whole(alloc, direction.0)?))?;
    legs.push(leg(FrameAxis::Y, whole(alloc, direction.1)?))?;
    legs.push(leg(FrameAxis::Z, whole(alloc, direction.2)?))?;
    Ok(Form::Shift(slanted_name(), legs))
}

/// A point that is approached and left along the direction of its feature.
///
/// # Errors
///
/// Out of memory.
pub fn pointed(alloc: Global, place: Coordinates) -> Result<Form, NoMemory>
    ensures { IfOk result (λ f. f ≡ pointed place) }
{
    let mut legs = Items::new(alloc);
    legs.push(leg(FrameAxis::X, place.x))?;
    legs.push(leg(FrameAxis::Y, place.y))?;
    legs.push(leg(FrameAxis::Z, place.z))?;
    Ok(Form::Shift(slanted_name(), legs))
}

/// Half the width of the tip, in micrometres, which slanted points ask for.
///
/// # Errors
///
/// Out of memory.
pub fn tip_said(alloc: Global, width: i32) -> Result<Form, NoMemory>
    ensures { IfOk result (λ f. f ≡ tip_said width) }
{
    let mut legs = Items::new(alloc);
    legs.push(leg(FrameAxis::X, length(alloc, width)?))?;
    Ok(Form::Shift(slanted_name(), legs))
}
