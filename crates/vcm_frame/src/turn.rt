//! The 24 turns.

ghost use Rattle.std.specs.Prelude.{◌≡◌, ◌<◌};
ghost use Rattle.vcm_spec.specs.Frame.{no_turn, product, quarter, quarters, direction, turn_back};
ghost use Rattle.vcm_frame.specs.inner.Rows.{taken, way, turn_of};

use crate::quarter::quartered;
use std::marker::Model;
use vcm_num::Axis;

/// One of the 24 turns of the axes onto each other, none of them a mirror image. It is kept by its rows: the directions of the part that the
/// machine's x, y and z take.
#[derive(Clone, Copy)]
pub struct Turn {
    first: Axis,
    second: Axis,
    third: Axis,
}

impl Model for Turn {
    ghost use Rattle.std.specs.Prelude.{IsTrue};
    ghost use Rattle.vcm_spec.specs.Frame.{Turn as Meaning, is_turn};
    ghost use Rattle.vcm_frame.specs.inner.Rows.{turn_of, axis_in};
    ghost use Rattle.vcm_frame.specs.inner.RowsBack.{fields_back};

    ghost Value = { Meaning };

    ghost view = { λ t. turn_of t.first t.second t.third };

    ghost invariant = { λ t. IsTrue (is_turn (turn_of t.first t.second t.third)) };

    ghost inverse = { λ t. record { first = axis_in t.first; second = axis_in t.second; third = axis_in t.third } };

    ghost inverse_ok = { λ a h i. record { first = fields_back a.first i; second = fields_back a.second i; third = fields_back a.third i } };
}

impl Turn {
    /// No turn.
    pub fn none() -> Turn
        ensures { result ≡ no_turn }
    {
        Turn {
            first: Axis::PlusX,
            second: Axis::PlusY,
            third: Axis::PlusZ,
        }
    }

    /// Where the turn takes a direction.
    pub fn direction(self, toward: Axis) -> Axis
        ensures { result ≡ direction self toward }
    {
        taken(self.first, self.second, self.third, toward)
    }

    /// Its rows: the directions of the part that the machine's x, y and z take.
    pub(crate) fn rows(self) -> (Axis, Axis, Axis)
        ensures { self ≡ turn_of result.0 result.1 result.2 }
    {
        (self.first, self.second, self.third)
    }

    /// Its columns: where it takes x, y and z.
    pub(crate) fn columns(self) -> (Axis, Axis, Axis)
        ensures { turn_back self ≡ turn_of result.0 result.1 result.2 }
    {
        (
            taken(self.first, self.second, self.third, Axis::PlusX),
            taken(self.first, self.second, self.third, Axis::PlusY),
            taken(self.first, self.second, self.third, Axis::PlusZ),
        )
    }

    // The turn, after a quarter turn about one of its own axes.
    fn after_quarter(self, axis: u8) -> Turn
        requires { axis < 3 }
        ensures { result ≡ product self (quarter axis) }
    {
        Turn {
            first: quartered(self.first, axis),
            second: quartered(self.second, axis),
            third: quartered(self.third, axis),
        }
    }

    /// The turn, after so many quarter turns about one of its own axes by the right-hand rule: 0 is x, 1 is y, 2 is z.
    pub fn turned(self, axis: u8, count: u8) -> Turn
        requires { axis < 3 }
        ensures { result ≡ product self (quarters axis count) }
    {
        let mut turn = self;
        for _ in 0..count {
            turn = turn.after_quarter(axis);
        }
        turn
    }
}

// A direction, or the one back where the two ways differ.
fn way(toward: Axis, one: bool, other: bool) -> Axis
    ensures { result ≡ way toward one other }
{
    match (one, other) {
        (true, true) => toward,
        (true, false) => toward.opposite(),
        (false, true) => toward.opposite(),
        (false, false) => toward,
    }
}

// Where the turn with these rows takes a direction.
fn taken(first: Axis, second: Axis, third: Axis, toward: Axis) -> Axis
    ensures { result ≡ taken first second third toward }
{
    if first.index() == toward.index() {
        way(Axis::PlusX, first.is_forward(), toward.is_forward())
    } else if second.index() == toward.index() {
        way(Axis::PlusY, second.is_forward(), toward.is_forward())
    } else {
        way(Axis::PlusZ, third.is_forward(), toward.is_forward())
    }
}
