//! Lengths that are carried, and the places that they are coordinates of.

ghost use Rattle.std.specs.Prelude.{◌≡◌};
ghost use Rattle.vcm_templates.specs.Carried.{length_name, length_target, length_term, frame_of, x_of, y_of, z_of, kept_place};

use crate::carried::{Carried, IMPLICIT};
use vcm_expr::{Expr, Term};
use vcm_forms::{Coordinates, Target};
use vcm_items::{Name, VariableName};

/// A variable that carries a length.
#[derive(Clone, Copy)]
pub enum Length {
    HomeX,
    HomeY,
    HomeZ,
    TargetX,
    TargetY,
    TargetZ,
    ProbeX,
    ProbeY,
    ProbeZ,
    /// The approach of touches.
    Approach,
    /// The way back.
    Retract,
    /// Half the width of the tip.
    Tip,
    /// The component of a feature's direction along the axis of an origin that lies on it.
    Along,
    /// The origins of the frame that is made.
    OriginX,
    OriginY,
    OriginZ,
}

impl Length {
    /// Its name.
    pub fn name(self) -> &'static [u8]
        ensures { result.now ≡ length_name self }
    {
        match self {
            Length::HomeX => b"HOMEX",
            Length::HomeY => b"HOMEY",
            Length::HomeZ => b"HOMEZ",
            Length::TargetX => b"TARGETX",
            Length::TargetY => b"TARGETY",
            Length::TargetZ => b"TARGETZ",
            Length::ProbeX => b"PROBEX",
            Length::ProbeY => b"PROBEY",
            Length::ProbeZ => b"PROBEZ",
            Length::Approach => b"APPROACHLENGTH",
            Length::Retract => b"RETRACTLENGTH",
            Length::Tip => b"TIPLENGTH",
            Length::Along => b"ALONG",
            Length::OriginX => b"ORIGINX",
            Length::OriginY => b"ORIGINY",
            Length::OriginZ => b"ORIGINZ",
        }
    }

    /// As the target of an assignment.
    pub fn target(self) -> Target
        ensures { result ≡ length_target self }
    {
        Target {
            name: Name::new(self.name()),
            expansion: IMPLICIT,
        }
    }

    /// In an expression.
    pub fn term(self) -> Term
        ensures { result ≡ length_term self }
    {
        Term::Variable(Name::new(self.name()), IMPLICIT)
    }

    /// Its name as a variable's.
    pub fn variable(self) -> VariableName
        ensures { result ≡ length_name self }
    {
        VariableName::new(self.name())
    }
}

/// A place that is kept: its coordinates, and the number of the frame that they are of.
#[derive(Clone, Copy)]
pub enum Kept {
    /// Where GOHOME goes to, by FROM.
    Home,
    /// Where ENDGO goes to.
    Target,
    /// Where the probe stands.
    Probe,
}

impl Kept {
    /// The number of its frame.
    pub fn frame(self) -> Carried
        ensures { result ≡ frame_of self }
    {
        match self {
            Kept::Home => Carried::HomeFrame,
            Kept::Target => Carried::TargetFrame,
            Kept::Probe => Carried::ProbeFrame,
        }
    }

    /// Its coordinate along X.
    pub fn x(self) -> Length
        ensures { result ≡ x_of self }
    {
        match self {
            Kept::Home => Length::HomeX,
            Kept::Target => Length::TargetX,
            Kept::Probe => Length::ProbeX,
        }
    }

    /// Its coordinate along Y.
    pub fn y(self) -> Length
        ensures { result ≡ y_of self }
    {
        match self {
            Kept::Home => Length::HomeY,
            Kept::Target => Length::TargetY,
            Kept::Probe => Length::ProbeY,
        }
    }

    /// Its coordinate along Z.
    pub fn z(self) -> Length
        ensures { result ≡ z_of self }
    {
        match self {
            Kept::Home => Length::HomeZ,
            Kept::Target => Length::TargetZ,
            Kept::Probe => Length::ProbeZ,
        }
    }

    /// The place.
    pub fn place(self) -> Coordinates
        ensures { result ≡ kept_place self }
    {
        Coordinates {
            x: Expr::leaf(self.x().term()),
            y: Expr::leaf(self.y().term()),
            z: Expr::leaf(self.z().term()),
        }
    }
}
