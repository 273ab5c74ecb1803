//! The points of a text that weren't tried.

ghost use Rattle.std.specs.Prelude.{◌≡◌, ◌≤◌, length};
ghost use Rattle.vcm_code.specs.declared.op.Op.TheVariants.{Plain};
ghost use Rattle.vcm_untried.specs.Points.{touched, point_before};

use vcm_code::Op;
use vcm_fields::{BorrowedOp, ItemSlice, TextSlice};
use vcm_loader::Loaded;
use vcm_spec::Simple;

// The feature that a simple statement touches.
fn touched_by(what: &Simple<ItemSlice<'_>, TextSlice<'_>>) -> Option<u16>
    ensures { result ≡ touched (Plain what.now) }
{
    match what {
        Simple::PtMeas(feature, _, _, _, _) => Some(*feature),
        _ => None,
    }
}

// The feature that a statement touches.
fn touched(op: &BorrowedOp<'_>) -> Option<u16>
    ensures { result ≡ touched op.now }
{
    match op {
        Op::Plain(what) => touched_by(what),
        _ => None,
    }
}

/// The feature that the last statement in front of one with this number touches which touches one, where all statements from there on are of this line: the point that
/// isn't tried where that statement is carried out.
pub fn point_before(loaded: &Loaded<'_>, line: u32, number: u32) -> Option<u16>
    requires { number ≤ length loaded.now.statements }
    ensures { result ≡ point_before loaded.now.statements line number }
{
    if number == 0 {
        return None;
    }
    let at = number - 1;
    let statement = loaded.statement(at as usize);
    if statement.line != line {
        return None;
    }
    match touched(&statement.op) {
        Some(feature) => Some(feature),
        None => point_before(loaded, line, at),
    }
}
