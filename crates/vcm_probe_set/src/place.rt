//! Where a fault of a probe file stands.

ghost use Rattle.std.specs.Prelude.{◌≡◌};
ghost use Rattle.vcm_probe_set.specs.Places.{key_word};

use std::fmt::{Display, Formatter, Result, Write};

/// What boxes belong to.
#[derive(Clone, Copy)]
pub enum BoxOwner {
    /// The probe of this number, counted from 1 in the order of the file.
    OfProbe(u32),
    /// The swing: what holds all that turns.
    OfSwing,
}

/// A table of a probe file.
#[derive(Clone, Copy)]
pub enum Place {
    /// The file itself.
    File,
    /// The limits of the pivot.
    InTravel,
    /// The probe of this number, counted from 1 in the order of the file.
    InProbe(u32),
    /// The box of this number, counted from 1 among those of its owner.
    InBox(BoxOwner, u32),
}

/// A key of a probe file.
#[derive(Clone, Copy)]
pub enum Key {
    Variable,
    Travel,
    Probe,
    Swing,
    Name,
    Number,
    Tip,
    Pivot,
    Pose,
    Boxes,
    Low,
    High,
}

impl Key {
    /// The word that it is spelled as.
    pub fn word(self) -> &'static str
        ensures { result.now ≡ key_word self }
    {
        match self {
            Key::Variable => "variable",
            Key::Travel => "travel",
            Key::Probe => "probe",
            Key::Swing => "swing",
            Key::Name => "name",
            Key::Number => "number",
            Key::Tip => "tip",
            Key::Pivot => "pivot",
            Key::Pose => "pose",
            Key::Boxes => "box",
            Key::Low => "low",
            Key::High => "high",
        }
    }
}

/// ` probe 2`, or ` swing`.
impl Display for BoxOwner {
    fn fmt<W: Write>(&self, out: &mut Formatter<W>) -> Result {
        match *self {
            BoxOwner::OfProbe(number) => write!(out, " probe {number}"),
            BoxOwner::OfSwing => out.write_str(" swing"),
        }
    }
}

/// ` travel`, ` probe 2`, ` probe 2 box 1`, ` swing 1`, or nothing.
impl Display for Place {
    fn fmt<W: Write>(&self, out: &mut Formatter<W>) -> Result {
        match *self {
            Place::File => Ok(()),
            Place::InTravel => out.write_str(" travel"),
            Place::InProbe(number) => write!(out, " probe {number}"),
            Place::InBox(BoxOwner::OfProbe(probe), number) => write!(
                out,
                " probe {probe} box {number}"
            ),
            Place::InBox(BoxOwner::OfSwing, number) => write!(out, " swing {number}"),
        }
    }
}
