//! Expands a program.

ghost use Rattle.std.specs.Prelude.{◌≡◌, ◌≤◌, ◌∷◌, ◌++◌, [], None, Some, length, OnOk, IfOk, IfErr};
ghost use Rattle.vcm_lines.specs.Fault.{NoMemoryOr};
ghost use Rattle.vcm_spec.specs.Phase.{IsClean};
ghost use Rattle.vcm_forms.specs.declared.statement.Form.TheVariants.{Macro, Call};
ghost use Rattle.vcm_macro.specs.Walk.{Inside, with_statement, waits_behind, walk};
ghost use Rattle.vcm_macro.specs.Rules.{BreaksMacros, codes_at, kept};
ghost use Rattle.vcm_macro.specs.Computed.{macro_fault};
ghost use Rattle.vcm_macro.specs.Expansion.{IsExpanded, IsRefused};
ghost use Rattle.vcm_macro.specs.inner.Reading.{with_current, IsRead, TellsRead};

use crate::blocks::is_in_block;
use crate::defining::{Opened, is_macro_end};
use crate::definition::{Definition, is_defined};
use crate::expanding::call;
use crate::expansion::{Expansion, MOST};
use crate::order::check_order;
use crate::parameters::has_twins;
use crate::placed::Placed;
use std::alloc::{AllocError, Global};
use std::mem;
use vcm_forms::{Argument, Form, Parameter, Statement};
use vcm_items::Name;
use vcm_lines::{FaultCode, SourceFault};
use vcm_num::Items;
use vcm_substitution::Bindings;

/// What is read of a text: its macros, the one that is open, whether a block of a SELECT has to begin, and what has been expanded.
#[derive(Drop)]
pub(crate) struct Reading {
    pub(crate) macros: Vec<Definition>,
    pub(crate) current: Option<Opened>,
    pub(crate) waits: bool,
    pub(crate) done: Expansion,
}

// Whether a block of a SELECT has to begin, or the SELECT to end, behind one more statement outside macros.
fn waits_behind(waits: bool, form: &Form) -> bool
    ensures { result ≡ waits_behind waits form.now }
{
    match form {
        Form::Choose(_) | Form::CaseEnd => true,
        _ => waits && !is_in_block(form),
    }
}

impl Reading {
    // MACRO outside macros.
    fn begin(
        &mut self,
        alloc: Global,
        line: u32,
        name: Name,
        parameters: Items<Parameter>,
    ) -> Result<(), SourceFault>
        requires { self.old.current ≡ None }
        ensures ok { OnOk result (IsRead self.old (record { line = line; form = Macro name parameters }) self.new) }
        ensures fault { IfErr result (NoMemoryOr (TellsRead self.old (record { line = line; form = Macro name parameters }))) }
    {
        if is_defined(&self.macros, &name) || has_twins(parameters.as_slice()) {
            let code = FaultCode::DuplicateName;
            return Err(SourceFault { code, line });
        }
        self.current = Some(Opened::new(alloc, name, parameters));
        Ok(())
    }

    // CALL outside macros.
    fn call(
        &mut self,
        alloc: Global,
        line: u32,
        name: &Name,
        written: &[Argument],
    ) -> Result<(), SourceFault>
        requires { self.old.current ≡ None }
        ensures ok { OnOk result (IsRead self.old (record { line = line; form = Call name.now written.now }) self.new) }
        ensures fault { IfErr result (NoMemoryOr (TellsRead self.old (record { line = line; form = Call name.now written.now }))) }
    {
        if self.waits {
            let code = FaultCode::Unbalanced;
            return Err(SourceFault { code, line });
        }
        let (macros, done) = (&self.macros, &mut self.done);
        let outside = Bindings::new(&[], &[], 0);
        call(alloc, macros, &outside, line, 1, name, written, done)
    }

    // One statement outside macros.
    fn outside(&mut self, alloc: Global, statement: Statement) -> Result<(), SourceFault>
        requires { self.old.current ≡ None }
        ensures ok { OnOk result (IsRead self.old statement self.new) }
        ensures fault { IfErr result (NoMemoryOr (TellsRead self.old statement)) }
    {
        let line = statement.line;
        match statement.form {
            Form::Macro(name, parameters) => self.begin(alloc, line, name, parameters),
            Form::Call(name, written) => self.call(alloc, line, &name, written.as_slice()),
            form => {
                self.waits = waits_behind(self.waits, &form);
                self.done.stand_written(Statement { line, form })
            }
        }
    }

    // The macro that was open, behind its ENDMAC.
    fn close(&mut self, alloc: Global, current: Opened) -> Result<(), AllocError>
        ensures macros { OnOk result (self.new.macros.items ≡ self.old.macros.items ++ current ∷ []) }
        ensures others { OnOk result ((self.new.current ≡ self.old.current) × (self.new.waits ≡ self.old.waits) × (self.new.done ≡ self.old.done)) }
    {
        let definition = current.closed(alloc)?;
        self.macros.push(definition)?;
        Ok(())
    }

    // The macro that is open, with one more statement.
    fn grow(&mut self, current: Opened, statement: Statement) -> Result<(), AllocError>
        ensures current { OnOk result (self.new.current ≡ Some (with_statement current statement)) }
        ensures others { OnOk result ((self.new.macros.items ≡ self.old.macros.items) × (self.new.waits ≡ self.old.waits) × (self.new.done ≡ self.old.done)) }
    {
        let grown = current.taken(statement)?;
        drop(mem::replace(&mut self.current, Some(grown)));
        Ok(())
    }

    // One statement of a macro that may stand there, or its ENDMAC.
    fn judged(
        &mut self,
        alloc: Global,
        current: Opened,
        statement: Statement,
    ) -> Result<(), AllocError>
        requires shut { self.old.current ≡ None }
        requires fine { codes_at 0 (Inside current statement) ≡ [] }
        ensures { OnOk result (IsRead (with_current current self.old) statement self.new) }
    {
        if is_macro_end(&statement.form) {
            drop(statement);
            self.close(alloc, current)
        } else {
            self.grow(current, statement)
        }
    }

    // One statement of a macro, or its ENDMAC.
    fn inside(
        &mut self,
        alloc: Global,
        current: Opened,
        statement: Statement,
    ) -> Result<(), SourceFault>
        requires { self.old.current ≡ None }
        ensures ok { OnOk result (IsRead (with_current current self.old) statement self.new) }
        ensures fault { IfErr result (NoMemoryOr (TellsRead (with_current current self.old) statement)) }
    {
        match current.judge(&statement) {
            Ok(()) => {
                self.judged(alloc, current, statement)?;
                Ok(())
            }
            Err(fault) => {
                drop(current);
                drop(statement);
                Err(fault)
            }
        }
    }

    // One statement of the text.
    fn read(&mut self, alloc: Global, statement: Statement) -> Result<(), SourceFault>
        ensures ok { OnOk result (IsRead self.old statement self.new) }
        ensures fault { IfErr result (NoMemoryOr (TellsRead self.old statement)) }
    {
        match self.current.take() {
            None => self.outside(alloc, statement),
            Some(current) => self.inside(alloc, current, statement),
        }
    }
}

/// The expanded program, whose statements stand in order, or the first fault of its macros.
fn expanded(alloc: Global, statements: Vec<Statement>) -> Result<Vec<Placed>, SourceFault>
    ensures clean { IfOk result (λ _. IsClean BreaksMacros (walk statements.items)) }
    ensures ok { IfOk result (λ all. all.items ≡ kept (walk statements.items)) }
    ensures few { IfOk result (λ all. length all.items ≤ 20000) }
    ensures fault { IfErr result (NoMemoryOr (λ f. macro_fault statements.items ≡ Some f)) }
{
    let done = Expansion::new(alloc, statements.len().min(MOST as usize))?;
    let mut reading = Reading {
        macros: Vec::new(alloc),
        current: None,
        waits: false,
        done,
    };
    for statement in statements {
        reading.read(alloc, statement)?;
    }
    Ok(reading.done.into_placed())
}

/// The expanded program: its statements that are counted and its declarations, each with the number of its expansion. The others are let go as
/// they are passed.
///
/// # Errors
///
/// The first fault of the first phase that has one, that of the order of statements or that of macros; of several faults at one place the leftmost. Want
/// of memory.
pub fn expand(alloc: Global, statements: Vec<Statement>) -> Result<Vec<Placed>, SourceFault>
    ensures ok { IfOk result (λ all. IsExpanded statements.items all.items) }
    ensures few { IfOk result (λ all. length all.items ≤ 20000) }
    ensures fault { IfErr result (NoMemoryOr (IsRefused statements.items)) }
{
    check_order(&statements)?;
    expanded(alloc, statements)
}
