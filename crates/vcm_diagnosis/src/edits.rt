//! Statements with some of them left out, others put in their place, and others in front of them.

use std::alloc::Global;
use vcm_expr::{Expr, Term};
use vcm_forms::{Coordinates, Form, Parameter, Rounds, Statement, Target};
use vcm_items::{Name, VariableName, is_name, is_variable_name};
use vcm_num::{Axis, Items, Kind, Literal, NoMemory};

/// What is put in front of a statement.
#[derive(Clone, Copy)]
pub(crate) enum Stock {
    Opening,
    Measures,
    TestEnd,
    RepeatEnd,
    MeasureEnd,
    CaseEnd,
    ChooseEnd,
    Touch,
    MacroEnd,
}

/// What becomes of a statement.
#[derive(Drop)]
pub(crate) enum Change {
    /// It is left out.
    Leave,
    /// It and all behind it are left out.
    LeaveRest,
    /// It declares this name no more.
    Without(Name),
    /// It says the same of names and blocks, and its expressions are numbers and truth values.
    Plain,
    /// It has a variable or a feature of its own.
    StandIn,
    /// It is a macro of another name.
    Renamed,
    /// This is put in front of it.
    Front(Stock),
    /// ENDFIL stands behind all.
    Ended,
}

/// A change of the statement in a line; behind all statements the line is the greatest.
#[derive(Drop)]
pub(crate) struct Edit {
    pub(crate) line: u32,
    pub(crate) change: Change,
}

/// The line of what is put behind all statements.
pub(crate) const BEHIND: u32 = u32::MAX;

// One of sixteen letters.
fn letter_of(number: u32) -> u8 {
    match number % 16 {
        0 => b'A',
        1 => b'B',
        2 => b'C',
        3 => b'D',
        4 => b'E',
        5 => b'F',
        6 => b'G',
        7 => b'H',
        8 => b'I',
        9 => b'J',
        10 => b'K',
        11 => b'L',
        12 => b'M',
        13 => b'N',
        14 => b'O',
        _ => b'P',
    }
}

// A name that hardly any text has: a letter, underscores, and a number in letters.
fn stand_in(letter: u8, number: u32) -> [u8; 16] {
    let mut bytes = *b"V_________AAAAAA";
    bytes[0] = letter;
    bytes[10] = letter_of(number / 1_048_576);
    bytes[11] = letter_of(number / 65_536);
    bytes[12] = letter_of(number / 4_096);
    bytes[13] = letter_of(number / 256);
    bytes[14] = letter_of(number / 16);
    bytes[15] = letter_of(number);
    bytes
}

// The same as a name.
fn stand_in_name(letter: u8, number: u32) -> Option<Name> {
    let bytes = stand_in(letter, number);
    if is_name(&bytes) {
        Some(Name::new(&bytes))
    } else {
        None
    }
}

// The number 0.
fn zero() -> Expr {
    Expr::leaf(Term::Number(Literal::Int(0)))
}

// The point of three zeros.
fn origin() -> Coordinates {
    Coordinates {
        x: zero(),
        y: zero(),
        z: zero(),
    }
}

// What a stock is.
fn stocked(stock: Stock) -> Form {
    match stock {
        Stock::Opening => Form::Opening,
        Stock::Measures => Form::Measures,
        Stock::TestEnd => Form::TestEnd,
        Stock::RepeatEnd => Form::RepeatEnd,
        Stock::MeasureEnd => Form::MeasureEnd,
        Stock::CaseEnd => Form::CaseEnd,
        Stock::ChooseEnd => Form::ChooseEnd,
        Stock::Touch => Form::Touch(origin(), None),
        Stock::MacroEnd => Form::MacroEnd,
    }
}

// Which stock stands in front of which, where several are put in front of one statement.
fn turn_of(stock: Stock) -> u8 {
    match stock {
        Stock::Opening | Stock::Measures => 2,
        Stock::MacroEnd => 1,
        _ => 0,
    }
}

// Appends what of this turn is put in front of a line.
fn put_turn(
    line: u32,
    told: u32,
    turn: u8,
    edits: &[Edit],
    out: &mut Vec<Statement>,
) -> Result<(), NoMemory> {
    for edit in edits {
        if let Change::Front(stock) = &edit.change {
            if edit.line == line && turn_of(*stock) == turn {
                let form = stocked(*stock);
                out.push(Statement { line: told, form })?;
            }
        }
    }
    Ok(())
}

// Appends what is put in front of a line; it has the line that is told.
fn put_fronts(
    line: u32,
    told: u32,
    edits: &[Edit],
    out: &mut Vec<Statement>,
) -> Result<(), NoMemory> {
    put_turn(line, told, 0, edits, out)?;
    put_turn(line, told, 1, edits, out)?;
    put_turn(line, told, 2, edits, out)
}

// The names but one.
fn without(
    alloc: Global,
    names: &[VariableName],
    other: &Name,
) -> Result<Items<VariableName>, NoMemory> {
    let mut left = Items::new(alloc);
    let mut is_first = true;
    for name in names {
        if is_first && name.name() == other {
            is_first = false;
        } else {
            left.push(name.copy())?;
        }
    }
    Ok(left)
}

// A statement that says the same of names and blocks, with numbers and truth values for its expressions, if it has such.
fn plain(alloc: Global, form: &Form) -> Option<Form> {
    match form {
        Form::Test(_) => Some(Form::Test(Expr::leaf(Term::Truth(true)))),
        Form::Choose(_) => Some(Form::Choose(zero())),
        Form::Touch(_, _) => Some(Form::Touch(origin(), None)),
        Form::Feature(name, _, toward) => Some(Form::Feature(name.copy(), origin(), *toward)),
        Form::Shift(name, _) => Some(Form::Shift(name.copy(), Items::new(alloc))),
        _ => None,
    }
}

// Appends a declaration of a variable of its own, and a DO of it.
fn put_rounds(alloc: Global, line: u32, out: &mut Vec<Statement>) -> Result<(), NoMemory> {
    let bytes = stand_in(b'V', line);
    if !is_variable_name(&bytes) {
        return Ok(());
    }
    let variable = VariableName::new(&bytes);
    let name = variable.name().copy();
    let mut names = Items::new(alloc);
    names.push(variable)?;
    let form = Form::Declaration(Kind::Int, names);
    out.push(Statement { line, form })?;
    let form = Form::Repeat(Rounds {
        variable: Target { name, expansion: 0 },
        initial: zero(),
        limit: zero(),
        increment: None,
    });
    out.push(Statement { line, form })?;
    Ok(())
}

// Appends a feature of its own, and a MEAS of it.
fn put_measure(line: u32, out: &mut Vec<Statement>) -> Result<(), NoMemory> {
    let Some(name) = stand_in_name(b'F', line) else {
        return Ok(());
    };
    let form = Form::Feature(name.copy(), origin(), Axis::PlusZ);
    out.push(Statement { line, form })?;
    let form = Form::Measure(name);
    out.push(Statement { line, form })?;
    Ok(())
}

// Appends a DO or a MEAS with a name of its own.
fn put_stand_in(
    alloc: Global,
    line: u32,
    form: &Form,
    out: &mut Vec<Statement>,
) -> Result<(), NoMemory> {
    match form {
        Form::Repeat(_) => put_rounds(alloc, line, out),
        Form::Measure(_) => put_measure(line, out),
        _ => Ok(()),
    }
}

// Parameters of which none has the name of another one.
fn untwinned(
    alloc: Global,
    line: u32,
    parameters: &[Parameter],
) -> Result<Items<Parameter>, NoMemory> {
    let mut all = Items::new(alloc);
    let mut number = line;
    for parameter in parameters {
        number = number.wrapping_add(20_000);
        let name = match stand_in_name(b'P', number) {
            Some(name) if is_twin(all.as_slice(), &parameter.name) => name,
            _ => parameter.name.copy(),
        };
        let quoted = parameter.quoted;
        all.push(Parameter { name, quoted })?;
    }
    Ok(all)
}

// Whether one of these has the name.
fn is_twin(parameters: &[Parameter], name: &Name) -> bool {
    for parameter in parameters {
        if parameter.name == *name {
            return true;
        }
    }
    false
}

// A macro of another name.
fn renamed(alloc: Global, line: u32, form: &Form) -> Result<Option<Form>, NoMemory> {
    let Form::Macro(name, parameters) = form else {
        return Ok(None);
    };
    let all = untwinned(alloc, line, parameters.as_slice())?;
    match stand_in_name(b'M', line) {
        Some(other) => Ok(Some(Form::Macro(other, all))),
        None => Ok(Some(Form::Macro(name.copy(), all))),
    }
}

// A declaration without a name.
fn shorter(alloc: Global, form: &Form, name: &Name) -> Result<Option<Form>, NoMemory> {
    let Form::Declaration(kind, names) = form else {
        return Ok(None);
    };
    let left = without(alloc, names.as_slice(), name)?;
    Ok(Some(Form::Declaration(*kind, left)))
}

// What a statement says after a change, if it says something else.
fn other_form(
    alloc: Global,
    line: u32,
    form: &Form,
    change: &Change,
) -> Result<Option<Form>, NoMemory> {
    match change {
        Change::Without(name) => shorter(alloc, form, name),
        Change::Plain => Ok(plain(alloc, form)),
        Change::Renamed => renamed(alloc, line, form),
        _ => Ok(None),
    }
}

// A statement after a change, if it is left.
fn changed(
    alloc: Global,
    statement: Statement,
    edit: &Edit,
) -> Result<Option<Statement>, NoMemory> {
    if let Change::Leave = &edit.change {
        drop(statement);
        return Ok(None);
    }
    let line = statement.line;
    match other_form(alloc, line, &statement.form, &edit.change)? {
        Some(form) => {
            drop(statement);
            Ok(Some(Statement { line, form }))
        }
        None => Ok(Some(statement)),
    }
}

// Appends a statement with all its changes.
fn put_edited(
    alloc: Global,
    statement: Statement,
    edits: &[Edit],
    out: &mut Vec<Statement>,
) -> Result<(), NoMemory> {
    let line = statement.line;
    let mut left = Some(statement);
    for edit in edits {
        if edit.line == line {
            left = match left {
                None => None,
                Some(statement) => {
                    if let Change::StandIn = &edit.change {
                        put_stand_in(alloc, line, &statement.form, out)?;
                        drop(statement);
                        None
                    } else {
                        changed(alloc, statement, edit)?
                    }
                }
            };
        }
    }
    if let Some(statement) = left {
        out.push(statement)?;
    }
    Ok(())
}

// Whether a line is changed.
fn is_changed(line: u32, edits: &[Edit]) -> bool {
    for edit in edits {
        if edit.line == line {
            return true;
        }
    }
    false
}

// Whether a line is behind all that is left.
fn is_cut(line: u32, edits: &[Edit]) -> bool {
    for edit in edits {
        if let Change::LeaveRest = &edit.change {
            if edit.line <= line {
                return true;
            }
        }
    }
    false
}

/// Whether ENDFIL is put behind all statements.
pub(crate) fn is_ended(edits: &[Edit]) -> bool {
    for edit in edits {
        if let Change::Ended = &edit.change {
            return true;
        }
    }
    false
}

/// Statements with these changes.
pub(crate) fn edited(
    alloc: Global,
    all: Vec<Statement>,
    edits: &[Edit],
) -> Result<Vec<Statement>, NoMemory> {
    let mut out = Vec::with_capacity(alloc, all.len())?;
    let mut last = 1;
    for statement in all {
        let line = statement.line;
        if is_cut(line, edits) {
            continue;
        }
        last = line;
        if is_changed(line, edits) {
            put_fronts(line, line, edits, &mut out)?;
            put_edited(alloc, statement, edits, &mut out)?;
        } else {
            out.push(statement)?;
        }
    }
    put_fronts(BEHIND, last, edits, &mut out)?;
    if is_ended(edits) {
        let form = Form::Ending;
        out.push(Statement { line: last, form })?;
    }
    Ok(out)
}
