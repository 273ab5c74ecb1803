//! The order of the statements of a text.

ghost use Rattle.std.specs.Prelude.{◌≡◌, MatchResult};
ghost use Rattle.vcm_spec.specs.Phase.{IsClean, FirstFault};
ghost use Rattle.vcm_macro.specs.Order.{wants_units, is_out_of_place, is_misplaced, is_open_behind, order_behind, BreaksOrder, order_line};

use vcm_forms::{Form, Statement};
use vcm_lines::{FaultCode, SourceFault};

/// What stands before a statement.
#[derive(Clone, Copy)]
pub(crate) struct Order {
    /// A statement does.
    pub begun: bool,
    /// A UNITS does.
    pub measured: bool,
    /// An ENDFIL does.
    pub ended: bool,
    /// A MACRO that is open.
    pub opened: bool,
    /// The line of the last one, 1 where there is none.
    pub last: u32,
}

// Whether a UNITS has to stand above a statement.
fn wants_units(form: &Form) -> bool
    ensures { result ≡ wants_units form.now }
{
    match form {
        Form::Call(_, _) => true,
        _ => form.is_counted(),
    }
}

// Whether a statement may not stand behind DMISMN where a MACRO is open, or none is.
fn is_out_of_place(opened: bool, form: &Form) -> bool
    ensures { result ≡ is_out_of_place opened form.now }
{
    match form {
        Form::Opening => true,
        Form::Measures | Form::Ending | Form::Macro(_, _) => opened,
        Form::MacroEnd => !opened,
        _ => false,
    }
}

// Whether a statement may not stand behind these.
fn is_misplaced(order: Order, form: &Form) -> bool
    ensures { result ≡ is_misplaced order form.now }
{
    if order.begun {
        order.ended || is_out_of_place(order.opened, form) || wants_units(form) && !order.measured
    } else {
        !matches!(form, Form::Opening)
    }
}

// Whether a MACRO is open behind a statement.
fn is_open_behind(opened: bool, form: &Form) -> bool
    ensures { result ≡ is_open_behind opened form.now }
{
    match form {
        Form::Macro(_, _) => true,
        Form::MacroEnd => false,
        _ => opened,
    }
}

// What stands before the next statement.
fn behind(order: Order, statement: &Statement) -> Order
    ensures { result ≡ order_behind order statement.now }
{
    Order {
        begun: true,
        measured: order.measured || matches!(statement.form, Form::Measures),
        ended: order.ended || matches!(statement.form, Form::Ending),
        opened: is_open_behind(order.opened, &statement.form),
        last: statement.line,
    }
}

/// The order is right, or the first fault against it.
pub(crate) fn check_order(statements: &[Statement]) -> Result<(), SourceFault>
    ensures { MatchResult result (λ _. IsClean BreaksOrder statements.now) (λ f. FirstFault BreaksOrder order_line statements.now f.code f.line) }
{
    let mut order = Order {
        begun: false,
        measured: false,
        ended: false,
        opened: false,
        last: 1,
    };
    for statement in statements {
        if is_misplaced(order, &statement.form) {
            return Err(SourceFault {
                code: FaultCode::BadOrder,
                line: statement.line,
            });
        }
        order = behind(order, statement);
    }
    if !order.ended {
        return Err(SourceFault {
            code: FaultCode::BadOrder,
            line: order.last,
        });
    }
    Ok(())
}
