//! The macros above a statement.

ghost use Rattle.std.specs.Prelude.{◌≡◌, IfOk, OnOk};
ghost use Rattle.std.specs.List.{list_any};
ghost use Rattle.vcm_doubts.specs.Settled.{begun, fits, all_fit, is_called, is_loose_one, is_loose};

use crate::names::{add_set, is_among, is_word};
use crate::reach::{go_behind, outermost};
use std::alloc::Global;
use std::marker::Model;
use vcm_forms::{Argument, Form, Parameter};
use vcm_items::Name;
use vcm_num::{Items, MOST_PARAMETERS, NoMemory, is};

/// A macro: its name, its parameters, and the variables that statements of its body set. Contracts see it as the `Known` of the definitions.
#[derive(Drop)]
pub(crate) struct Known {
    name: Name,
    parameters: Items<Parameter>,
    changed: Items<Name>,
}

// The same parameters once more.
fn copied(alloc: Global, parameters: &[Parameter]) -> Result<Items<Parameter>, NoMemory>
    ensures { IfOk result (λ ps. ps ≡ parameters.now) }
{
    let mut copies = Items::new(alloc);
    for parameter in parameters {
        copies.push(Parameter {
            name: parameter.name.copy(),
            quoted: parameter.quoted,
        })?;
    }
    Ok(copies)
}

// Whether an argument is what a parameter wants where the body sets these variables: a name for a quoted one, else a value, and the body doesn't set it.
fn fits(changed: &[Name], parameter: &Parameter, argument: &Argument) -> bool
    ensures { result ≡ fits changed.now parameter.now argument.now }
{
    if parameter.quoted {
        argument.name.is_some()
    } else {
        argument.value.is_some() && !is_among(changed, parameter.name.as_bytes())
    }
}

// Whether there are as many arguments as parameters, and each is what its parameter wants.
fn all_fit(changed: &[Name], parameters: &[Parameter], arguments: &[Argument]) -> bool
    ensures { result ≡ all_fit changed.now parameters.now arguments.now }
{
    let mut rest = parameters;
    let mut arguments = arguments;
    'each: while let Some((parameter, others)) = rest.split_first() {
        let Some((argument, left)) = arguments.split_first() else {
            return false;
        };
        if !fits(changed, parameter, argument) {
            return false;
        }
        rest = others;
        arguments = left;
    }
    arguments.is_empty()
}

// Whether a parameter is in quotes, and stands without them too.
fn is_loose_one(loose: &[Items<u8>], parameter: &Parameter) -> bool
    ensures { result ≡ is_loose_one loose.now parameter.now }
{
    parameter.quoted && is_word(loose, parameter.name.as_bytes())
}

// Whether one of the parameters is.
fn has_loose_one(loose: &[Items<u8>], parameters: &[Parameter]) -> bool
    ensures { result ≡ list_any (is_loose_one loose.now) parameters.now }
{
    parameters
        .iter()
        .any(|parameter| is_loose_one(loose, parameter))
}

impl Model for Known {
    ghost use Rattle.vcm_doubts.specs.Settled.{Known as Meaning};

    ghost Value = { Meaning };

    ghost view = { λ m. record { name = m.name; parameters = m.parameters; set = m.changed } };
}

impl Known {
    ghost use Rattle.std.specs.Prelude.{◌++◌};
    ghost use Rattle.vcm_doubts.specs.Doubts.{sets};

    // A macro that begins.
    fn new(alloc: Global, name: &Name, parameters: &[Parameter]) -> Result<Known, NoMemory>
        ensures { IfOk result (λ m. m ≡ begun name.now parameters.now) }
    {
        let parameters = copied(alloc, parameters)?;
        Ok(Known {
            name: name.copy(),
            parameters,
            changed: Items::new(alloc),
        })
    }

    // A statement of its body.
    fn pass(&mut self, form: &Form) -> Result<(), NoMemory>
        ensures { OnOk result (self.new ≡ record self.old { set = self.old.set ++ sets form.now }) }
    {
        add_set(&mut self.changed, form)
    }

    // Whether it may be called by this name with these arguments.
    fn is_called(&self, name: &[u8], arguments: &[Argument]) -> bool
        ensures { result ≡ is_called name.now arguments.now self.now }
    {
        is(self.name.as_bytes(), name)
            && self.parameters.len() <= MOST_PARAMETERS
            && all_fit(
                self.changed.as_slice(),
                self.parameters.as_slice(),
                arguments,
            )
    }
}

// Whether a macro has this name, and a parameter that is in quotes and stands without them too.
fn is_loose(loose: &[Items<u8>], name: &[u8], known: &Known) -> bool
    ensures { result ≡ is_loose loose.now name.now known.now }
{
    is(known.name.as_bytes(), name) && has_loose_one(loose, known.parameters.as_slice())
}

// Whether one of these macros has.
fn has_loose(macros: &[Known], loose: &[Items<u8>], name: &[u8]) -> bool
    ensures { result ≡ list_any (is_loose loose.now name.now) macros.now }
{
    macros.iter().any(|known| is_loose(loose, name, known))
}

// Whether one of these macros may be called by this name with these arguments.
fn has_called(macros: &[Known], name: &[u8], arguments: &[Argument]) -> bool
    ensures { result ≡ list_any (is_called name.now arguments.now) macros.now }
{
    macros.iter().any(|known| known.is_called(name, arguments))
}

/// The macros that end above, and the one that is open; and the blocks that are. Contracts see it as the `Macros` of the definitions.
#[derive(Drop)]
pub(crate) struct Macros {
    above: Vec<Known>,
    current: Option<Known>,
    blocks: Vec<u32>,
}

impl Model for Macros {
    ghost use Rattle.std.specs.Prelude.{reverse};
    ghost use Rattle.vcm_doubts.specs.Settled.{Macros as Meaning};

    ghost Value = { Meaning };

    ghost view = { λ m. record { above = reverse m.above.items; current = m.current; blocks = m.blocks.items } };
}

impl Macros {
    ghost use Rattle.std.specs.Prelude.{Some, None};
    ghost use Rattle.vcm_doubts.specs.Settled.{no_macros, gone_on, ended, known_behind, macros_behind};

    /// No macro stands above.
    pub(crate) fn new(alloc: Global) -> Result<Macros, NoMemory>
        ensures { IfOk result (λ ms. ms ≡ no_macros) }
    {
        Ok(Macros {
            above: Vec::new(alloc),
            current: None,
            blocks: outermost(alloc)?,
        })
    }

    /// The blocks that are open, the outermost first.
    pub(crate) fn blocks(&self) -> &[u32]
        ensures { result.now ≡ self.now.blocks }
    {
        &self.blocks
    }

    /// Whether a macro above may be called by this name with these arguments.
    #[tactic(auto, using(crate::proofs::Reversed::any_reversed))]
    pub(crate) fn have(&self, name: &[u8], arguments: &[Argument]) -> bool
        ensures { result ≡ list_any (is_called name.now arguments.now) self.now.above }
    {
        has_called(&self.above, name, arguments)
    }

    /// Whether a macro above has this name, and a parameter that is in quotes and stands without them too.
    #[tactic(auto, using(crate::proofs::Reversed::any_reversed))]
    pub(crate) fn have_loose(&self, loose: &[Items<u8>], name: &[u8]) -> bool
        ensures { result ≡ list_any (is_loose loose.now name.now) self.now.above }
    {
        has_loose(&self.above, loose, name)
    }

    // A macro begins.
    fn begin(
        &mut self,
        alloc: Global,
        name: &Name,
        parameters: &[Parameter],
    ) -> Result<(), NoMemory>
        ensures { OnOk result (self.new ≡ record self.old { current = Some (begun name.now parameters.now) }) }
    {
        self.current = Some(Known::new(alloc, name, parameters)?);
        Ok(())
    }

    // A macro ends.
    fn end(&mut self) -> Result<(), NoMemory>
        ensures { OnOk result (self.new ≡ record self.old { above = ended self.old.above self.old.current; current = None }) }
    {
        match self.current.take() {
            Some(known) => {
                self.above.push(known)?;
                Ok(())
            }
            None => Ok(()),
        }
    }

    // The macro that is open, if there is one, goes on.
    fn go_on(&mut self, form: &Form) -> Result<(), NoMemory>
        ensures { OnOk result (self.new ≡ record self.old { current = gone_on form.now self.old.current }) }
    {
        match self.current.take() {
            Some(mut known) => {
                known.pass(form)?;
                self.current = Some(known);
                Ok(())
            }
            None => Ok(()),
        }
    }

    // A statement is passed by its macro.
    fn know(&mut self, alloc: Global, form: &Form) -> Result<(), NoMemory>
        ensures { OnOk result (self.new ≡ known_behind self.old form.now) }
    {
        match form {
            Form::Macro(name, parameters) => self.begin(alloc, name, parameters.as_slice()),
            Form::MacroEnd => self.end(),
            _ => self.go_on(form),
        }
    }

    /// A statement on a line is passed.
    ///
    /// # Errors
    ///
    /// Out of memory.
    pub(crate) fn pass(&mut self, alloc: Global, line: u32, form: &Form) -> Result<(), NoMemory>
        ensures { OnOk result (self.new ≡ macros_behind self.old line form.now) }
    {
        self.know(alloc, form)?;
        go_behind(&mut self.blocks, line, form)
    }
}
