//! What a fault of macros and blocks is about, as they are written.

use crate::about::{About, Misfit, Sort};
use crate::blocks::Blocks;
use crate::names::{Named, Names};
use std::alloc::Global;
use vcm_expr::{Expr, Piece};
use vcm_forms::{Argument, Form, Parameter, Statement};
use vcm_items::{Name, VariableName};
use vcm_lines::{FaultCode, SourceFault};
use vcm_num::{Kind, NoMemory};

/// A macro: the places of its MACRO and of its ENDMAC, or of the end.
#[derive(Clone, Copy)]
pub(crate) struct Extent {
    pub(crate) start: usize,
    pub(crate) end: usize,
}

/// The macros of a text, in writing.
pub(crate) fn extents(alloc: Global, all: &[Statement]) -> Result<Vec<Extent>, NoMemory> {
    let mut found = Vec::new(alloc);
    let mut start = None;
    for place in 0..all.len() {
        match &all[place].form {
            Form::Macro(_, _) => start = Some(place),
            Form::MacroEnd => {
                if let Some(start) = start {
                    found.push(Extent { start, end: place })?;
                }
                start = None;
            }
            _ => {}
        }
    }
    if let Some(start) = start {
        let end = all.len();
        found.push(Extent { start, end })?;
    }
    Ok(found)
}

/// The macro in which a place is, if it is in one: its ENDMAC is, its MACRO isn't.
pub(crate) fn extent_of(extents: &[Extent], place: usize) -> Option<Extent> {
    for extent in extents {
        if extent.start < place && place <= extent.end {
            return Some(*extent);
        }
    }
    None
}

// Adds the name of a macro.
fn add_macro(names: &mut Names, statement: &Statement) -> Result<(), NoMemory> {
    if let Form::Macro(name, _) = &statement.form {
        names.add(Named {
            sort: Sort::Macro,
            name: name.copy(),
            expansion: 0,
            line: statement.line,
            kind: Kind::Int,
            block: 0,
            opener: 0,
        })?;
    }
    Ok(())
}

// The macros that stand above a place, and above the macro in which it is.
fn macros_above(
    alloc: Global,
    all: &[Statement],
    extents: &[Extent],
    place: usize,
) -> Result<Names, NoMemory> {
    let most = match extent_of(extents, place) {
        Some(extent) => extent.start,
        None => place,
    };
    let mut names = Names::new(alloc);
    for extent in extents {
        if extent.end < most {
            if let Some(statement) = all.get(extent.start) {
                add_macro(&mut names, statement)?;
            }
        }
    }
    Ok(names)
}

// The last macro of this name above a place: where its MACRO stands.
fn called(all: &[Statement], extents: &[Extent], place: usize, wanted: &Name) -> Option<Extent> {
    let mut found = None;
    for extent in extents {
        if extent.end < place {
            if let Some(statement) = all.get(extent.start) {
                if is_macro(statement, wanted) {
                    found = Some(*extent);
                }
            }
        }
    }
    found
}

// Whether a statement is the MACRO of this name.
fn is_macro(statement: &Statement, wanted: &Name) -> bool {
    match &statement.form {
        Form::Macro(name, _) => *name == *wanted,
        _ => false,
    }
}

// Whether a parameter of these has the name.
fn has_parameter(parameters: &[Parameter], name: &Name) -> bool {
    for parameter in parameters {
        if parameter.name == *name {
            return true;
        }
    }
    false
}

/// The first parameter whose name another one behind it has too.
pub(crate) fn twin_in(parameters: &[Parameter]) -> Option<&Name> {
    let mut rest = parameters;
    'each: while let Some((parameter, others)) = rest.split_first() {
        if has_parameter(others, &parameter.name) {
            return Some(&parameter.name);
        }
        rest = others;
    }
    None
}

// The first of the declared names that a parameter has.
fn redeclared<'a>(parameters: &[Parameter], names: &'a [VariableName]) -> Option<&'a Name> {
    for name in names {
        if has_parameter(parameters, name.name()) {
            return Some(name.name());
        }
    }
    None
}

// What a MACRO is about that gives a name again.
fn macro_twin(
    all: &[Statement],
    extents: &[Extent],
    place: usize,
    name: &Name,
    parameters: &[Parameter],
) -> Option<About> {
    if let Some(extent) = called(all, extents, place, name) {
        let line = line_at(all, extent.start);
        return Some(About::Declared(Sort::Macro, name.copy(), line));
    }
    let twin = twin_in(parameters)?;
    let line = line_at(all, place);
    Some(About::Declared(Sort::Variable, twin.copy(), line))
}

// The line of the statement at a place.
fn line_at(all: &[Statement], place: usize) -> u32 {
    match all.get(place) {
        Some(statement) => statement.line,
        None => 0,
    }
}

// What a declaration is about that gives the name of a parameter again.
fn parameter_twin(
    all: &[Statement],
    extents: &[Extent],
    place: usize,
    names: &[VariableName],
) -> Option<About> {
    let extent = extent_of(extents, place)?;
    let statement = all.get(extent.start)?;
    match &statement.form {
        Form::Macro(_, parameters) => {
            let name = redeclared(parameters.as_slice(), names)?;
            Some(About::Declared(Sort::Variable, name.copy(), statement.line))
        }
        _ => None,
    }
}

// Whether a statement assigns to the variable of this name.
fn assigns(form: &Form, name: &Name) -> bool {
    match form {
        Form::Assignment(target, _) => target.name == *name,
        Form::Query(target, _, _, _) => target.name == *name,
        Form::Repeat(rounds) => rounds.variable.name == *name,
        _ => false,
    }
}

// Whether a statement of these assigns to the variable of this name.
fn is_assigned(body: &[Statement], name: &Name) -> bool {
    for statement in body {
        if assigns(&statement.form, name) {
            return true;
        }
    }
    false
}

// Whether an argument is a variable.
fn is_variable(value: &Option<Expr>) -> bool {
    match value {
        Some(e) => matches!(e.pieces(), [Piece::Variable(_, _)]),
        None => false,
    }
}

// What is wrong with an argument for a parameter of this body.
fn misfit(body: &[Statement], parameter: &Parameter, argument: &Argument) -> Option<Misfit> {
    if parameter.quoted {
        return match &argument.name {
            Some(_) => None,
            None => Some(Misfit::NoName),
        };
    }
    if argument.value.is_none() {
        return Some(Misfit::NoValue);
    }
    if is_assigned(body, &parameter.name) && !is_variable(&argument.value) {
        return Some(Misfit::NoVariable);
    }
    None
}

// What the arguments of a call are about that don't fit the macro in this line.
fn arguments_about(
    name: &Name,
    line: u32,
    body: &[Statement],
    parameters: &[Parameter],
    arguments: &[Argument],
) -> About {
    if parameters.len() != arguments.len() || parameters.len() > 16 {
        return About::Count(name.copy(), line, parameters.len(), arguments.len());
    }
    let mut rest = arguments;
    let mut number: usize = 0;
    for parameter in parameters {
        let Some((argument, others)) = rest.split_first() else {
            return About::Nothing;
        };
        number = number.saturating_add(1);
        if let Some(misfit) = misfit(body, parameter, argument) {
            return About::Argument(number, name.copy(), line, misfit);
        }
        rest = others;
    }
    About::Nothing
}

// What a call is about whose arguments don't fit.
fn call_about(
    all: &[Statement],
    extents: &[Extent],
    place: usize,
    name: &Name,
    arguments: &[Argument],
) -> Option<About> {
    let extent = called(all, extents, place, name)?;
    let statement = all.get(extent.start)?;
    let body = all.get(extent.start..extent.end)?;
    match &statement.form {
        Form::Macro(_, parameters) => Some(arguments_about(
            name,
            statement.line,
            body,
            parameters.as_slice(),
            arguments,
        )),
        _ => None,
    }
}

// What a fault of the statement at a place is about, by the macros of the text, if it is one of them.
fn macro_about(
    alloc: Global,
    all: &[Statement],
    extents: &[Extent],
    place: usize,
    code: FaultCode,
) -> Result<Option<About>, NoMemory> {
    let Some(statement) = all.get(place) else {
        return Ok(None);
    };
    match (&statement.form, code) {
        (Form::Macro(name, parameters), FaultCode::DuplicateName) => {
            Ok(macro_twin(all, extents, place, name, parameters.as_slice()))
        }
        (Form::Declaration(_, names), FaultCode::DuplicateName) => {
            Ok(parameter_twin(all, extents, place, names.as_slice()))
        }
        (Form::Call(name, arguments), FaultCode::BadArguments) => {
            Ok(call_about(all, extents, place, name, arguments.as_slice()))
        }
        (Form::Call(name, _), FaultCode::UnknownName) => {
            let names = macros_above(alloc, all, extents, place)?;
            Ok(Some(names.missing(alloc, Sort::Macro, name, 0)?))
        }
        _ => Ok(None),
    }
}

/// Where blocks are out of balance: the place of the statement, and the blocks that are open there, as they are written.
#[derive(Drop)]
pub(crate) struct Site {
    pub(crate) place: usize,
    pub(crate) blocks: Blocks,
}

/// The first statement in this line that is out of balance among the blocks, as they are written.
pub(crate) fn site_of(
    alloc: Global,
    all: &[Statement],
    line: u32,
) -> Result<Option<Site>, NoMemory> {
    let mut outside = Blocks::new(alloc);
    let mut inside = None;
    for place in 0..all.len() {
        let statement = &all[place];
        let is_there = statement.line == line;
        let Some(blocks) = inside else {
            if is_there && outside.about(&statement.form).is_some() {
                let blocks = outside;
                return Ok(Some(Site { place, blocks }));
            }
            if let Form::Macro(_, _) = &statement.form {
                inside = Some(Blocks::new(alloc));
            } else {
                outside.take(&statement.form, statement.line)?;
                inside = None;
            }
            continue;
        };
        if is_there && blocks.about(&statement.form).is_some() {
            return Ok(Some(Site { place, blocks }));
        }
        inside = match &statement.form {
            Form::MacroEnd => None,
            form => Some(taken(blocks, form, statement.line)?),
        };
    }
    Ok(None)
}

// The blocks behind one more statement.
fn taken(blocks: Blocks, form: &Form, line: u32) -> Result<Blocks, NoMemory> {
    let mut blocks = blocks;
    blocks.take(form, line)?;
    Ok(blocks)
}

// What a fault of blocks in this line is about.
fn balance_about(alloc: Global, all: &[Statement], line: u32) -> Result<About, NoMemory> {
    match site_of(alloc, all, line)? {
        None => Ok(About::Deep),
        Some(site) => match all.get(site.place) {
            None => Ok(About::Nothing),
            Some(statement) => Ok(site.blocks.about(&statement.form).unwrap_or(About::Nothing)),
        },
    }
}

/// What a fault is about, where the statements as they are written tell it.
pub(crate) fn written_about(
    alloc: Global,
    all: &[Statement],
    fault: SourceFault,
) -> Result<Option<About>, NoMemory> {
    match fault.code {
        FaultCode::BadOrder => Ok(Some(crate::order::order_about(all))),
        FaultCode::Unbalanced => Ok(Some(balance_about(alloc, all, fault.line)?)),
        FaultCode::DuplicateName | FaultCode::UnknownName | FaultCode::BadArguments => {
            macros_about(alloc, all, fault)
        }
        FaultCode::BadType | FaultCode::JumpInward | FaultCode::MeasBody => Ok(None),
        _ => Ok(Some(About::Nothing)),
    }
}

// What a fault of a name is about, if it is one of macros.
fn macros_about(
    alloc: Global,
    all: &[Statement],
    fault: SourceFault,
) -> Result<Option<About>, NoMemory> {
    let extents = extents(alloc, all)?;
    for place in 0..all.len() {
        if all[place].line == fault.line {
            let found = macro_about(alloc, all, extents.as_slice(), place, fault.code)?;
            if found.is_some() {
                return Ok(found);
            }
        }
    }
    Ok(None)
}
