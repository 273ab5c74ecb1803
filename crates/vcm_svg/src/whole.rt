//! Arithmetic on whole numbers.

ghost use Rattle.std.specs.Prelude.{◌≡◌, pos, ◌*ℤ◌, ◌≤ℤ◌};
ghost use Rattle.std.specs.Int.{int_div_euclid};

use crate::ranges::{Length, Unit};

/// The quotient rounded down.
pub fn quotient(value: i64, by: i64) -> i64
    requires { pos 1 ≤ℤ by }
    ensures value { result ≡ int_div_euclid value by }
    ensures from_zero { pos 0 ≤ℤ value → pos 0 ≤ℤ result }
    ensures to_value { pos 0 ≤ℤ value → result ≤ℤ value }
    ensures below_zero { value ≤ℤ pos 0 → result ≤ℤ pos 0 }
    ensures from_value { value ≤ℤ pos 0 → value ≤ℤ result }
{
    value.div_euclid(by)
}

/// The product of a length in units and the micrometres of a unit.
#[tactic(auto, using(crate::proofs::Signed::signed))]
pub(crate) fn scaled(units: Length, grain: Unit) -> i64
    requires fine { grain ≤ℤ pos 1000 }
    ensures { result ≡ units *ℤ grain }
{
    units.get() * grain.get()
}
