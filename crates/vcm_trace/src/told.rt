//! What the last field of a line tells of a statement that did not stop.

ghost use Rattle.std.specs.Prelude.{◌≡◌};
ghost use Rattle.vcm_trace.specs.Lines.{told_of};

use vcm_code::Op;
use vcm_fields::BorrowedOp;
use vcm_spec::{Setting, Simple};

/// What is told of a statement. Variables, features and frames go by their indexes.
#[derive(Clone, Copy)]
pub enum Told {
    /// That the probe has moved.
    Moved,
    /// A variable and its value.
    Value(u16),
    /// The index of a loop and its value, and the next statement.
    Index(u16),
    /// The next statement.
    Next,
    /// The feature that was declared.
    Declared(u16),
    /// The feature that was measured, and the touched point.
    Measured(u16),
    /// A setting of the probe and its length.
    Length(Setting),
    /// The frame that is the current one.
    Framed(u16),
    /// How many output lines there are.
    Printed,
    /// Nothing.
    Nothing,
}

/// What is told of a statement.
pub fn told_of(op: &BorrowedOp<'_>) -> Told
    ensures { result ≡ told_of op.now }
{
    match op {
        Op::EndFil => Told::Nothing,
        Op::Plain(Simple::Goto(_, _, _)) => Told::Moved,
        Op::Plain(Simple::GoHome) => Told::Moved,
        Op::Plain(Simple::Assign(variable, _)) => Told::Value(*variable),
        Op::If(_, _) => Told::Next,
        Op::Else(_) => Told::Next,
        Op::EndIf => Told::Nothing,
        Op::Do(variable, _, _, _, _, _) => Told::Index(*variable),
        Op::EndDo(variable, _, _) => Told::Index(*variable),
        Op::Label => Told::Nothing,
        Op::JumpTo(_) => Told::Next,
        Op::Plain(Simple::Feat(feature, _, _, _, _)) => Told::Declared(*feature),
        Op::Meas(_) => Told::Nothing,
        Op::Plain(Simple::PtMeas(feature, _, _, _, _)) => Told::Measured(*feature),
        Op::EndMes => Told::Nothing,
        Op::Plain(Simple::SnSet(which, _)) => Told::Length(*which),
        Op::Plain(Simple::Trans(frame, _, _, _)) => Told::Framed(*frame),
        Op::Plain(Simple::Rotate(frame, _, _)) => Told::Framed(*frame),
        Op::Plain(Simple::Recall(frame)) => Told::Framed(*frame),
        Op::Plain(Simple::Obtain(variable, _, _, _)) => Told::Value(*variable),
        Op::Plain(Simple::Output(_, _)) => Told::Printed,
        Op::Plain(Simple::Text(_)) => Told::Printed,
        Op::Select(_, _, _) => Told::Next,
        Op::Case => Told::Nothing,
        Op::EndCas(_) => Told::Next,
        Op::DftCas => Told::Nothing,
        Op::EndSel => Told::Nothing,
    }
}
