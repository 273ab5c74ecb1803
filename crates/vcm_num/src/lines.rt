//! The first line of a text.

ghost use Rattle.std.specs.Prelude.{◌≡◌, ◌<◌, ◌∷◌, ◌++◌, length};
ghost use Rattle.std.specs.Str.Lines.{lines, strip_carriage_return};
ghost use Rattle.vcm_num.specs.Lines.{whole_lines, first_line, after_line};

use crate::bytes::line_feed;

// A line without the carriage return of its ending.
fn without_return(line: &[u8]) -> &[u8]
    ensures { result.now ≡ strip_carriage_return line.now }
{
    match line {
        [front @ .., b'\r'] => front,
        _ => line,
    }
}

/// The first line without its ending, a line feed or a carriage return and a line feed, and what stands after it.
pub fn split_line(text: &[u8]) -> (&[u8], &[u8])
    requires { 0 < length text.now }
    ensures cut { lines text.now ≡ result.0.now ∷ lines result.1.now }
    ensures shorter { length result.1.now < length text.now }
{
    match line_feed(text) {
        None => (text, &[]),
        Some(end) => (without_return(&text[..end]), &text[end + 1..]),
    }
}

/// The first line with its line feed, and what stands after it.
pub fn whole_line(text: &[u8]) -> (&[u8], &[u8])
    requires { 0 < length text.now }
    ensures cut { whole_lines text.now ≡ result.0.now ∷ whole_lines result.1.now }
    ensures parts { text.now ≡ result.0.now ++ result.1.now }
    ensures shorter { length result.1.now < length text.now }
{
    match line_feed(text) {
        None => (text, &[]),
        Some(end) => (&text[..end + 1], &text[end + 1..]),
    }
}

/// The first line without its line feed, and what stands after that.
pub fn cut_line(text: &[u8]) -> (&[u8], &[u8])
    ensures line { result.0.now ≡ first_line text.now }
    ensures rest { result.1.now ≡ after_line text.now }
{
    match line_feed(text) {
        None => (text, &[]),
        Some(end) => (&text[..end], &text[end + 1..]),
    }
}
