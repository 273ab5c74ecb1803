//! The two texts of a job.

ghost use Rattle.std.specs.Prelude.{◌≡◌, ◌<◌, ◌∷◌, ◌++◌, length, ◌==◌};
ghost use Rattle.vcm_job.specs.Jobs.{is_mark, part_text, program_text};

use vcm_num::{is, whole_line};

// Whether a line is the mark between the two texts.
fn is_mark(line: &[u8]) -> bool
    ensures { result ≡ is_mark line.now }
{
    is(line, b"%%") || is(line, b"%%\n") || is(line, b"%%\r\n")
}

/// The part text of a job's input, and its program text, which is empty where no line is exactly `%%`.
pub(crate) fn texts_of(input: &[u8]) -> (&[u8], &[u8])
    ensures part { result.0.now ≡ part_text input.now }
    ensures program { result.1.now ≡ program_text input.now }
{
    let mut rest = input;
    while !rest.is_empty() {
        let (line, after) = whole_line(rest);
        if is_mark(line) {
            return (&input[..input.len() - rest.len()], after);
        }
        rest = after;
    }
    (input, &[])
}
