//! Frames.

ghost use Rattle.std.specs.Prelude.{◌≡◌, IsTrue};
ghost use Rattle.vcm_num.specs.Point.{coordinate};
ghost use Rattle.vcm_spec.specs.Frame.{opening_frame, is_turn, to_machine, to_part, shifted_frame, turned_frame, direction};
ghost use Rattle.vcm_spec.specs.Outcome.{Answers, point_at};

use crate::checked::{point_from, row_between, row_of};
use crate::turn::Turn;
use std::marker::Model;
use vcm_num::{Axis, Point, add};
use vcm_spec::{FrameAxis, Quarters, Stop};

/// Part coordinates: a turn, and the machine point of their origin, in micrometres.
#[derive(Clone, Copy)]
pub struct Frame {
    turn: Turn,
    origin: Point,
}

impl Model for Frame {
    ghost use Rattle.vcm_spec.specs.Frame.{Frame as Meaning};

    ghost Value = { Meaning };

    ghost view = { λ f. record { turn = f.turn; origin = f.origin } };

    ghost inverse = { λ f. record { turn = f.turn; origin = f.origin } };
}

impl Frame {
    /// The frame at the start: part coordinates are the machine's.
    pub fn opening() -> Frame
        ensures { result ≡ opening_frame }
    {
        Frame {
            turn: Turn::none(),
            origin: Point([0, 0, 0]),
        }
    }

    /// The machine coordinates of a point in part coordinates, all in micrometres.
    ///
    /// Errors: `Overflow` where one of them has no 64 bits.
    pub fn apply(self, at: Point) -> Result<Point, Stop>
        ensures answer { Answers (point_at (to_machine self (coordinate at))) result }
        ensures turn { IsTrue (is_turn self.turn) }
    {
        let (a, b, c) = self.turn.rows();
        let Point([x, y, z]) = self.origin;
        if let (Axis::PlusX, Axis::PlusY, Axis::PlusZ) = (a, b, c) {
            let Point([u, v, w]) = at;
            return point_from(add(u, x), add(v, y), add(w, z));
        }
        point_from(row_of(a, at, x), row_of(b, at, y), row_of(c, at, z))
    }

    /// The part coordinates of a point in machine coordinates, all in micrometres.
    ///
    /// Errors: `Overflow` where one of them has no 64 bits.
    pub fn invert(self, at: Point) -> Result<Point, Stop>
        ensures answer { Answers (point_at (to_part self (coordinate at))) result }
        ensures turn { IsTrue (is_turn self.turn) }
    {
        let (a, b, c) = self.turn.columns();
        point_from(
            row_between(a, self.origin, at),
            row_between(b, self.origin, at),
            row_between(c, self.origin, at),
        )
    }

    /// The frame with its origin at a point, in micrometres of its own coordinates; the turn stays.
    ///
    /// Errors: `Overflow` where a machine coordinate of that point has no 64 bits.
    pub fn shifted(self, by: Point) -> Result<Frame, Stop>
        ensures { Answers (shifted_frame self (coordinate by)) result }
    {
        let origin = self.apply(by)?;
        Ok(Frame {
            turn: self.turn,
            origin,
        })
    }

    /// The frame turned by quarter turns about one of its own axes by the right-hand rule. The origin stays.
    pub fn turned(self, axis: FrameAxis, quarters: Quarters) -> Frame
        ensures { result ≡ turned_frame self axis quarters }
    {
        Frame {
            turn: self.turn.turned(axis.number(), quarters.number()),
            origin: self.origin,
        }
    }

    /// The machine direction that a direction of the part is.
    pub fn direction(self, toward: Axis) -> Axis
        ensures { result ≡ direction self.turn toward }
    {
        self.turn.direction(toward)
    }
}
