//! What a fault of the order of statements is about.

use crate::about::{About, Block, Word};
use vcm_forms::{Form, Statement};

// What stands above a statement, each by its line, 0 where it doesn't.
#[derive(Clone, Copy)]
struct Order {
    opening: u32,
    units: u32,
    ending: u32,
    opened: u32,
}

// Whether a UNITS has to stand above a statement.
fn wants_units(form: &Form) -> bool {
    match form {
        Form::Call(_, _) => true,
        _ => form.is_counted(),
    }
}

// What a statement is about that is out of its place by its form alone, where a MACRO is open in this line, or none is.
fn out_of_place(order: Order, form: &Form) -> Option<About> {
    match form {
        Form::Opening => Some(About::Above(Word::Dmismn, order.opening)),
        Form::Measures if order.opened != 0 => {
            Some(About::Inside(Word::Units, Block::Macro, order.opened))
        }
        Form::Ending | Form::Macro(_, _) if order.opened != 0 => {
            Some(About::Unended(Block::Macro, order.opened))
        }
        Form::MacroEnd if order.opened == 0 => Some(About::Blockless(Word::Endmac, Block::Macro)),
        _ => None,
    }
}

// What a statement is about that may not stand here.
fn misplaced(order: Order, form: &Form) -> Option<About> {
    if order.opening == 0 {
        return match form {
            Form::Opening => None,
            _ => Some(About::NothingAbove(Word::Dmismn)),
        };
    }
    if order.ending != 0 {
        return Some(About::Above(Word::Endfil, order.ending));
    }
    match out_of_place(order, form) {
        Some(about) => Some(about),
        None if wants_units(form) && order.units == 0 => Some(About::NothingAbove(Word::Units)),
        None => None,
    }
}

// What stands above the next statement.
fn behind(order: Order, statement: &Statement) -> Order {
    let line = statement.line;
    let mut next = order;
    match &statement.form {
        Form::Opening => next.opening = line,
        Form::Measures => next.units = line,
        Form::Ending => next.ending = line,
        Form::Macro(_, _) => next.opened = line,
        Form::MacroEnd => next.opened = 0,
        _ => {}
    }
    next
}

/// What the first fault of the order is about.
pub(crate) fn order_about(statements: &[Statement]) -> About {
    let mut order = Order {
        opening: 0,
        units: 0,
        ending: 0,
        opened: 0,
    };
    for statement in statements {
        if let Some(about) = misplaced(order, &statement.form) {
            return about;
        }
        order = behind(order, statement);
    }
    if order.opened != 0 {
        About::Unended(Block::Macro, order.opened)
    } else {
        About::Endless
    }
}
