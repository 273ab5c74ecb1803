//! How a model is placed on the machine.

ghost use Rattle.std.specs.Prelude.{◌≡◌, ◌≤◌};
ghost use Rattle.vcm_mesh.specs.Lengths.{scale_of};
ghost use Rattle.vcm_mesh.specs.Placings.{turned_to, no_turn, then_quarter, near, placed};

use crate::fault::Misread;
use vcm_num::{Axis, Point};
use vcm_spec::FrameAxis;

/// What a length of the model is: a mesh file doesn't say.
#[derive(Clone, Copy, PartialEq, Eq)]
pub enum LengthUnit {
    Millimetre,
    Inch,
}

impl LengthUnit {
    /// How many micrometres it is.
    pub fn scale(self) -> u64
        ensures is { result ≡ scale_of self }
        ensures small { result ≤ 25400 }
    {
        match self {
            LengthUnit::Millimetre => 1000,
            LengthUnit::Inch => 25_400,
        }
    }
}

/// Quarter turns: for each axis of the machine the direction of the model that comes to lie along it.
#[derive(Clone, Copy, PartialEq, Eq)]
pub struct Turn {
    pub x: Axis,
    pub y: Axis,
    pub z: Axis,
}

impl Turn {
    /// No turn.
    pub fn none() -> Turn
        ensures { result ≡ no_turn }
    {
        Turn {
            x: Axis::PlusX,
            y: Axis::PlusY,
            z: Axis::PlusZ,
        }
    }

    /// This turn, and then a quarter turn about an axis of the machine by the right-hand rule.
    pub fn then_quarter(self, about: FrameAxis) -> Turn
        ensures { result ≡ then_quarter about self }
    {
        let Turn { x, y, z } = self;
        match about {
            FrameAxis::X => Turn {
                x,
                y: z.opposite(),
                z: y,
            },
            FrameAxis::Y => Turn {
                x: z,
                y,
                z: x.opposite(),
            },
            FrameAxis::Z => Turn {
                x: y.opposite(),
                y: x,
                z,
            },
        }
    }
}

/// How a model is placed on the machine: its unit, its turn, and then the machine point, in micrometres, of its origin.
#[derive(Clone, Copy, PartialEq, Eq)]
pub struct Placing {
    pub unit: LengthUnit,
    pub turn: Turn,
    pub at: Point,
}

// A coordinate of a turned and moved point. Beyond 64 bits it is cut off, where it is too far either way.
fn turned_to(along: Axis, from: Point, more: i64) -> Result<i64, Misread>
    ensures { result ≡ near (turned_to along from more) }
{
    let Point([x, y, z]) = from;
    match along {
        Axis::PlusX => near(more.saturating_add(x)),
        Axis::MinusX => near(more.saturating_sub(x)),
        Axis::PlusY => near(more.saturating_add(y)),
        Axis::MinusY => near(more.saturating_sub(y)),
        Axis::PlusZ => near(more.saturating_add(z)),
        Axis::MinusZ => near(more.saturating_sub(z)),
    }
}

// A coordinate that is at most a kilometre from 0.
fn near(z: i64) -> Result<i64, Misread>
    ensures { result ≡ near z }
{
    if -1_000_000_000 <= z && z <= 1_000_000_000 {
        Ok(z)
    } else {
        Err(Misread::TooFar)
    }
}

// The point of the machine at which a point of the model lies.
pub(crate) fn placed(placing: &Placing, from: Point) -> Result<Point, Misread>
    ensures { result ≡ placed placing.now from }
{
    let Point([x, y, z]) = placing.at;
    let x = turned_to(placing.turn.x, from, x)?;
    let y = turned_to(placing.turn.y, from, y)?;
    let z = turned_to(placing.turn.z, from, z)?;
    Ok(Point::new(x, y, z))
}
