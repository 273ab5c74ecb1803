//! What hangs on the head, as it hangs at A 0, B 0.

ghost use Rattle.std.specs.Prelude.{◌≡◌, ◌≤◌, length};

use crate::word::Word;
use std::marker::Model;

/// A place in micrometres from the turning centre, z upwards.
#[derive(Clone, Copy)]
pub struct Place {
    pub x: i32,
    pub y: i32,
    pub z: i32,
}

/// A box that stands still, from the turning centre.
#[derive(Drop)]
pub struct StillBox {
    pub name: Word,
    pub low: Place,
    pub high: Place,
}

/// A part that turns: a cylinder between two places that differ on one axis. Where it is slanted, its boxes run on by `step`.
#[derive(Drop)]
pub struct Cylinder {
    pub name: Word,
    pub from: Place,
    pub to: Place,
    pub diameter: i32,
    pub step: i32,
}

/// A ball that turns.
#[derive(Drop)]
pub struct Ball {
    pub name: Word,
    pub at: Place,
    pub diameter: i32,
}

/// A probe: its tip by its place among the balls, from 0, and how the head is turned, in thousandths of a degree.
#[derive(Drop)]
pub struct Choice {
    pub name: Word,
    pub number: i32,
    pub tip: usize,
    pub a: i32,
    pub b: i32,
}

/// What hangs on the head: by how much B is mounted otherwise, the boxes that stand still, at most 32 parts that turn, and the balls.
#[derive(Drop)]
pub struct Hardware {
    turn: i32,
    heads: Vec<StillBox>,
    parts: Vec<Cylinder>,
    balls: Vec<Ball>,
}

impl Model for Hardware {
    ghost use Rattle.std.specs.Prelude.{◌≤◌, length};
    ghost use Rattle.vcm_hardware.specs.Described.{Hanging};

    ghost Value = { Hanging };

    ghost view = { λ h. record { turn = h.turn; heads = h.heads.items; parts = h.parts.items; balls = h.balls.items } };

    ghost invariant = { λ h. length h.parts.items ≤ 32 };
}

impl Hardware {
    pub(crate) fn new(
        turn: i32,
        heads: Vec<StillBox>,
        parts: Vec<Cylinder>,
        balls: Vec<Ball>,
    ) -> Hardware
        requires { length parts.items ≤ 32 }
        ensures { result ≡ record { turn = turn; heads = heads.items; parts = parts.items; balls = balls.items } }
    {
        Hardware {
            turn,
            heads,
            parts,
            balls,
        }
    }

    /// By how much B is mounted otherwise, in thousandths of a degree.
    pub fn turn(&self) -> i32
        ensures { result ≡ self.now.turn }
    {
        self.turn
    }

    /// The boxes that stand still.
    pub fn heads(&self) -> &[StillBox]
        ensures { result.now ≡ self.now.heads }
    {
        &self.heads
    }

    /// The parts that turn.
    pub fn parts(&self) -> &[Cylinder]
        ensures parts { result.now ≡ self.now.parts }
        ensures few { length result.now ≤ 32 }
    {
        &self.parts
    }

    /// The balls.
    pub fn balls(&self) -> &[Ball]
        ensures { result.now ≡ self.now.balls }
    {
        &self.balls
    }
}

/// A description: what hangs on the head, and the probes that are chosen of it.
#[derive(Drop)]
pub struct Description {
    variable: Option<Word>,
    hardware: Hardware,
    choices: Vec<Choice>,
}

impl Model for Description {
    ghost use Rattle.vcm_hardware.specs.Described.{Described};

    ghost Value = { Described };

    ghost view = { λ d. record { variable = d.variable; hanging = d.hardware; choices = d.choices.items } };
}

impl Description {
    pub(crate) fn new(
        variable: Option<Word>,
        hardware: Hardware,
        choices: Vec<Choice>,
    ) -> Description
        ensures { result ≡ record { variable = variable; hanging = hardware; choices = choices.items } }
    {
        Description {
            variable,
            hardware,
            choices,
        }
    }

    /// The name of the variable, where the description has one.
    pub fn variable(&self) -> &Option<Word>
        ensures { result.now ≡ self.now.variable }
    {
        &self.variable
    }

    /// What hangs on the head.
    pub fn hardware(&self) -> &Hardware
        ensures { result.now ≡ self.now.hanging }
    {
        &self.hardware
    }

    /// The probes.
    pub fn choices(&self) -> &[Choice]
        ensures { result.now ≡ self.now.choices }
    {
        &self.choices
    }
}
