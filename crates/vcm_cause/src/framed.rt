//! Which statement made the current frame.

ghost use Rattle.std.specs.Prelude.{◌≡◌};
ghost use Rattle.vcm_cause.specs.Behind.{framed_by, framed_behind};

use vcm_code::Op;
use vcm_fields::BorrowedOp;
use vcm_spec::{Simple, StopPlace};

// The line of the statement that made the current frame, behind a statement of this line.
fn framed_by(old: u32, op: &BorrowedOp<'_>, line: u32) -> u32
    ensures { result ≡ framed_by old op.now line }
{
    match op {
        Op::Plain(Simple::Trans(_, _, _, _)) => line,
        Op::Plain(Simple::Rotate(_, _, _)) => line,
        Op::Plain(Simple::Recall(_)) => line,
        _ => old,
    }
}

/// The same behind a step, which makes none where it stopped. 0 is that of the machine's own frame.
pub fn framed_behind(old: u32, op: &BorrowedOp<'_>, line: u32, stop: Option<StopPlace>) -> u32
    ensures { result ≡ framed_behind old op.now line stop }
{
    match stop {
        Some(_) => old,
        None => framed_by(old, op, line),
    }
}
