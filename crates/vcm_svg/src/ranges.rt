//! Numbers, places and boxes that keep their ranges, all of them far within 64 bits.

ghost use Rattle.std.specs.Prelude.{◌≡◌, pos, ◌+ℤ◌, ◌-ℤ◌, ◌*ℤ◌};
ghost use Rattle.vcm_svg.specs.Rect.{boxed, spot};
ghost use Rattle.vcm_svg.specs.Ranges.{IsExtent, IsPlace, IsRect, IsSpot, IsUnit};

use crate::rect::{Rect, Spot};
use std::marker::Model;

/// The unit of marks and texts, in units of the picture, or the micrometres of one of those: from 1 to 2^33.
#[derive(Clone, Copy)]
pub struct Unit {
    number: i64,
}

impl Model for Unit {
    ghost use Rattle.std.specs.Prelude.{ℤ};
    ghost use Rattle.vcm_svg.specs.Ranges.{IsUnit};

    ghost Value = { ℤ };

    ghost view = { λ u. u.number };

    ghost invariant = { λ u. IsUnit u.number };

    ghost inverse = { λ z. record { number = z } };
}

impl Unit {
    /// The unit of this number.
    pub fn new(number: i64) -> Unit
        requires { IsUnit number }
        ensures { result ≡ number }
    {
        Unit { number }
    }

    /// Its number.
    pub fn get(self) -> i64
        ensures number { result ≡ self }
        ensures range { IsUnit result }
    {
        self.number
    }

    /// So many of it.
    pub fn times(self, count: u16) -> Length
        ensures { result ≡ pos count *ℤ self }
    {
        Length {
            number: i64::from(count) * self.number,
        }
    }
}

/// A length in units of the picture: from 0 to 2^49.
#[derive(Clone, Copy)]
pub struct Length {
    number: i64,
}

impl Model for Length {
    ghost use Rattle.std.specs.Prelude.{ℤ};
    ghost use Rattle.vcm_svg.specs.Ranges.{IsExtent};

    ghost Value = { ℤ };

    ghost view = { λ l. l.number };

    ghost invariant = { λ l. IsExtent l.number };

    ghost inverse = { λ z. record { number = z } };
}

impl Length {
    /// The length of this number.
    pub fn new(number: i64) -> Length
        requires { IsExtent number }
        ensures { result ≡ number }
    {
        Length { number }
    }

    /// Its number.
    pub fn get(self) -> i64
        ensures number { result ≡ self }
        ensures range { IsExtent result }
    {
        self.number
    }

    /// Twice its number.
    #[tactic(auto, using(crate::proofs::Signed::signed))]
    pub(crate) fn twice(self) -> i64
        ensures { result ≡ pos 2 *ℤ self }
    {
        2 * self.number
    }
}

/// A place in a view, or one where a part of the picture begins: its numbers lie within 2^40 of 0.
#[derive(Clone, Copy)]
pub struct BoundedSpot {
    spot: Spot,
}

impl Model for BoundedSpot {
    ghost use Rattle.vcm_svg.specs.declared.rect.Spot.{Spot as Meaning};
    ghost use Rattle.vcm_svg.specs.Ranges.{IsSpot};

    ghost Value = { Meaning };

    ghost view = { λ p. p.spot };

    ghost invariant = { λ p. IsSpot p.spot };

    ghost inverse = { λ s. record { spot = s } };
}

impl BoundedSpot {
    /// The place that a spot is.
    pub fn new(spot: Spot) -> BoundedSpot
        requires { IsSpot spot }
        ensures { result ≡ spot }
    {
        BoundedSpot { spot }
    }

    /// Its spot.
    pub fn spot(self) -> Spot
        ensures spot { result ≡ self }
        ensures range { IsSpot result }
    {
        self.spot
    }

    /// The place as one that others may stand beside.
    pub fn site(self) -> Site
        ensures { result ≡ self }
    {
        Site { spot: self.spot }
    }

    /// The place so far to the right of it and below it.
    #[tactic(auto, using(crate::proofs::Signed::signed))]
    pub fn moved(self, right: Length, down: Length) -> Site
        ensures { result ≡ spot (self.x +ℤ right) (self.y +ℤ down) }
    {
        let Spot { x, y } = self.spot;
        let spot = Spot {
            x: x + right.number,
            y: y + down.number,
        };
        Site { spot }
    }

    /// The place so far to the right of it, and a gap more.
    #[tactic(auto, using(crate::proofs::Signed::signed))]
    pub(crate) fn behind(self, long: Length, gap: Length) -> Spot
        ensures { result ≡ spot (self.x +ℤ long +ℤ gap) self.y }
    {
        let Spot { x, y } = self.spot;
        Spot {
            x: x + long.number + gap.number,
            y,
        }
    }
}

/// A place beside one in a view: its numbers lie within 2^51 of 0.
#[derive(Clone, Copy)]
pub struct Site {
    spot: Spot,
}

impl Model for Site {
    ghost use Rattle.vcm_svg.specs.declared.rect.Spot.{Spot as Meaning};
    ghost use Rattle.vcm_svg.specs.Ranges.{IsPlace};

    ghost Value = { Meaning };

    ghost view = { λ p. p.spot };

    ghost invariant = { λ p. IsPlace p.spot };

    ghost inverse = { λ s. record { spot = s } };
}

impl Site {
    /// The place that a spot is.
    pub fn new(spot: Spot) -> Site
        requires { IsPlace spot }
        ensures { result ≡ spot }
    {
        Site { spot }
    }

    /// Its spot.
    pub fn spot(self) -> Spot
        ensures spot { result ≡ self }
        ensures range { IsPlace result }
    {
        self.spot
    }

    /// The place so far to the left of it.
    #[tactic(auto, using(crate::proofs::Signed::signed))]
    pub(crate) fn left_by(self, far: Length) -> Spot
        ensures { result ≡ spot (self.x -ℤ far) self.y }
    {
        let Spot { x, y } = self.spot;
        Spot {
            x: x - far.number,
            y,
        }
    }

    /// The place so far above it.
    #[tactic(auto, using(crate::proofs::Signed::signed))]
    pub fn up_by(self, far: Length) -> Spot
        ensures { result ≡ spot self.x (self.y -ℤ far) }
    {
        let Spot { x, y } = self.spot;
        Spot {
            x,
            y: y - far.number,
        }
    }

    /// The place so far to the left of it and above it.
    #[tactic(auto, using(crate::proofs::Signed::signed))]
    pub(crate) fn back_by(self, far: Length) -> Spot
        ensures { result ≡ spot (self.x -ℤ far) (self.y -ℤ far) }
    {
        let Spot { x, y } = self.spot;
        Spot {
            x: x - far.number,
            y: y - far.number,
        }
    }
}

/// The rectangle of a block, or of what lies between two places: its numbers lie within 2^40 of 0.
#[derive(Clone, Copy)]
pub struct Area {
    rect: Rect,
}

impl Model for Area {
    ghost use Rattle.vcm_svg.specs.declared.rect.Rect.{Rect as Meaning};
    ghost use Rattle.vcm_svg.specs.Ranges.{IsRect};

    ghost Value = { Meaning };

    ghost view = { λ a. a.rect };

    ghost invariant = { λ a. IsRect a.rect };

    ghost inverse = { λ r. record { rect = r } };
}

impl Area {
    /// The area that a rectangle is.
    pub fn new(rect: Rect) -> Area
        requires { IsRect rect }
        ensures { result ≡ rect }
    {
        Area { rect }
    }

    /// Its rectangle.
    pub fn rect(self) -> Rect
        ensures rect { result ≡ self }
        ensures range { IsRect result }
    {
        self.rect
    }

    /// Its upper left corner.
    pub fn corner(self) -> Spot
        ensures { result ≡ spot self.left self.top }
    {
        Spot {
            x: self.rect.left,
            y: self.rect.top,
        }
    }

    /// How far it extends to the right.
    #[tactic(auto, using(crate::proofs::Signed::signed))]
    pub fn wide(self) -> i64
        ensures { result ≡ self.right -ℤ self.left }
    {
        self.rect.right - self.rect.left
    }

    /// How far it extends downwards.
    #[tactic(auto, using(crate::proofs::Signed::signed))]
    pub fn high(self) -> i64
        ensures { result ≡ self.bottom -ℤ self.top }
    {
        self.rect.bottom - self.rect.top
    }
}

/// The box of a text: its corner is a place beside one in a view.
#[derive(Clone, Copy)]
pub struct TextBox {
    rect: Rect,
}

impl Model for TextBox {
    ghost use Rattle.vcm_svg.specs.declared.rect.Rect.{Rect as Meaning};
    ghost use Rattle.vcm_svg.specs.Ranges.{IsTextBox};

    ghost Value = { Meaning };

    ghost view = { λ b. b.rect };

    ghost invariant = { λ b. IsTextBox b.rect };

    ghost inverse = { λ r. record { rect = r } };
}

impl TextBox {
    /// The box of this corner, width and height.
    #[tactic(auto, using(crate::proofs::Signed::signed))]
    pub fn new(corner: Site, wide: Length, high: Length) -> TextBox
        ensures { result ≡ boxed corner.x corner.y wide high }
    {
        let Spot { x, y } = corner.spot;
        let rect = Rect {
            left: x,
            top: y,
            right: x + wide.number,
            bottom: y + high.number,
        };
        TextBox { rect }
    }

    /// Its rectangle.
    pub fn rect(self) -> Rect
        ensures { result ≡ self }
    {
        self.rect
    }

    /// Where a text of these letters begins in it: at its left, so many units below its top.
    #[tactic(auto, using(crate::proofs::Signed::signed))]
    pub fn first_letter(self, down: Length) -> Spot
        ensures { result ≡ spot self.left (self.top +ℤ down) }
    {
        Spot {
            x: self.rect.left,
            y: self.rect.top + down.number,
        }
    }
}
