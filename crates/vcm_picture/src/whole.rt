//! Arithmetic on whole numbers.

ghost use Rattle.std.specs.Prelude.{◌≡◌, pos, ◌*ℤ◌};
ghost use Rattle.vcm_picture.specs.Ranges.{IsLetters};
ghost use Rattle.vcm_svg.specs.Rect.{boxed};
ghost use Rattle.vcm_svg.specs.Ranges.{IsLarge};

use vcm_svg::{Length, Site, Spot, TextBox, Unit};

/// The width of so many letters whose size is given: 6 for each.
pub(crate) fn letters_wide(letters: i64, size: Unit) -> Length
    requires { IsLetters letters }
    ensures { result ≡ pos 6 *ℤ letters *ℤ size }
{
    Length::new(6 * letters * size.get())
}

/// The box of a text with its corner at a place beside one in a view.
pub(crate) fn text_box(x: i64, y: i64, wide: Length, high: Length) -> TextBox
    requires x { IsLarge x }
    requires y { IsLarge y }
    ensures { result ≡ boxed x y wide high }
{
    TextBox::new(Site::new(Spot { x, y }), wide, high)
}
