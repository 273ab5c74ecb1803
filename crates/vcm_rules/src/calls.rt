//! Macros and their calls.

use crate::control::go_through;
use crate::expressions::untried_value;
use crate::measuring::measure;
use crate::moving::untried_move;
use crate::spelled::standing;
use crate::view::{Body, Features, Here, Left, Said};
use vcm_classes::{Arrival, Facts, Flow, Frame, Ruling, called};
use vcm_num::NoMemory;
use vcm_spelling::Rounding;
use vcm_standard::Reason;

// A name in quotes.
fn quoted<'a>(field: &'a [u8]) -> Option<&'a [u8]> {
    match field {
        [b'\'', name @ .., b'\''] => Some(name),
        _ => None,
    }
}

// The names in quotes of a macro are those of its parameters that stand for features.
fn take_parameters<'a>(said: Said<'_, 'a>, features: &mut Features<'a>) -> Result<(), NoMemory> {
    features.parameters.clear();
    for field in said.fields {
        if let Some(name) = quoted(field) {
            features.parameters.push(name)?;
        }
    }
    Ok(())
}

/// MACRO.
pub(crate) fn begin_macro<'a>(
    said: Said<'_, 'a>,
    here: &mut Here<'a>,
    facts: &Facts<'a>,
    features: &mut Features<'a>,
) -> Result<(), NoMemory> {
    take_parameters(said, features)?;
    let title = said.parts.title;
    let way = facts.call(title).unwrap_or(Arrival {
        has_points: false,
        ..Arrival::on(here.flow)
    });
    here.body = Some(Body {
        title,
        outside: here.flow,
        has_points: way.has_points,
        is_lost: way.is_lost,
        left: here.left,
    });
    here.left = Left {
        line: said.line,
        is_elsewhere: false,
    };
    here.flow = Flow {
        frame: Frame::Known(here.new_frame()),
        origin: None,
        approach: way.approach,
        is_manual: way.is_manual,
    };
    Ok(())
}

/// ENDMAC.
pub(crate) fn end_macro<'a>(
    here: &mut Here<'a>,
    facts: &mut Facts<'a>,
    features: &mut Features<'a>,
) -> Result<(), NoMemory> {
    features.parameters.clear();
    let Some(body) = here.body else {
        return Ok(());
    };
    let is_elsewhere = here.left.is_elsewhere;
    here.flow = body.outside;
    here.left = body.left;
    here.body = None;
    if is_elsewhere {
        facts.stray(body.title)
    } else {
        Ok(())
    }
}

// Why a call isn't tried, if it isn't.
fn untried_call<'a>(
    said: Said<'_, 'a>,
    here: &Here<'a>,
    facts: &Facts<'a>,
    arguments: &[&'a [u8]],
) -> Option<Reason> {
    if let Some(reason) = untried_move(said.ground.traits.is_followed, here) {
        return Some(reason);
    }
    for argument in arguments {
        if quoted(argument).is_none() {
            if let Some(reason) = untried_value(facts, argument, said.ground.options.is_exact) {
                return Some(reason);
            }
        }
    }
    None
}

// The arguments in quotes are measured where the macro measures; whether all of them are points along an axis.
fn take_arguments<'a>(
    row: usize,
    here: &Here<'a>,
    features: &mut Features<'a>,
    arguments: &[&'a [u8]],
    measures: bool,
) -> Result<bool, NoMemory> {
    let mut are_points = true;
    for argument in arguments {
        if let Some(name) = quoted(argument) {
            are_points = are_points && features.is_along(here.body, name);
            if measures {
                measure(row, here, features, name)?;
            }
        }
    }
    Ok(are_points)
}

// What is found out by a call.
fn add_call<'a>(
    label: &'a [u8],
    here: &Here<'a>,
    facts: &mut Facts<'a>,
    is_tried: bool,
    has_points: bool,
) -> Result<(), NoMemory> {
    if !is_tried {
        return facts.add_lost_call(label);
    }
    let way = Arrival {
        has_points,
        ..Arrival::on(here.flow)
    };
    facts.add_call(label, way)
}

// The fields behind the first one.
fn behind_first<'b, 'a>(fields: &'b [&'a [u8]]) -> &'b [&'a [u8]] {
    match fields {
        [_, others @ ..] => others,
        [] => &[],
    }
}

/// CALL of a macro.
pub(crate) fn call_macro<'a>(
    said: Said<'_, 'a>,
    label: &'a [u8],
    here: &mut Here<'a>,
    facts: &mut Facts<'a>,
    features: &mut Features<'a>,
    rounding: &mut Rounding,
) -> Result<Ruling, NoMemory> {
    let arguments = behind_first(said.fields);
    let untried = untried_call(said, here, facts, arguments);
    let outlook = said.outlook();
    let measures = untried.is_none() && outlook.is_some_and(|outlook| outlook.marks.measures);
    let has_points = take_arguments(said.row, here, features, arguments, measures)?;
    add_call(label, here, facts, untried.is_none(), has_points)?;
    if let Some(outlook) = outlook {
        go_through(here, outlook.marks);
    }
    match untried {
        None => standing(said, rounding),
        Some(reason) => Ok(Ruling::NotTried(reason)),
    }
}

/// CALL.
pub(crate) fn call<'a>(
    said: Said<'_, 'a>,
    here: &mut Here<'a>,
    facts: &mut Facts<'a>,
    features: &mut Features<'a>,
    rounding: &mut Rounding,
) -> Result<Ruling, NoMemory> {
    match called(said.parts.rest) {
        Some(label) => call_macro(said, label, here, facts, features, rounding),
        None => {
            here.lose_frame();
            here.flow.approach = None;
            Ok(Ruling::NotTried(Reason::OtherPrograms))
        }
    }
}
