//! Lines of a text.

ghost use Rattle.std.specs.Prelude.{◌≡◌};
ghost use Rattle.vcm_calls.specs.Lines.{source_line};

use vcm_num::cut_line;

/// The line of a text with this number, the first being 1, without the blanks at its ends; nothing, where there is no such line.
pub fn source_line(text: &[u8], number: u32) -> &[u8]
    ensures { result.now ≡ source_line text.now number }
{
    let mut rest = text;
    let mut left = number;
    while left > 1 {
        rest = cut_line(rest).1;
        left -= 1;
    }
    cut_line(rest).0.trim_ascii()
}
