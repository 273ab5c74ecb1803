//! Macros as they are written.

ghost use Rattle.std.specs.Prelude.{◌≡◌, None, map, reverse, IfOk, MatchOption};
ghost use Rattle.std.specs.List.{list_any};
ghost use Rattle.vcm_substitution.specs.Substitution.{is_same};
ghost use Rattle.vcm_macro.specs.Rules.{wanted_by, takes};
ghost use Rattle.vcm_macro.specs.inner.Expanding.{found, IsFoundAt};

use crate::fitting::{Wanted, all_wanted};
use std::alloc::{AllocError, Global};
use std::marker::Model;
use vcm_forms::{Parameter, Statement};
use vcm_items::Name;
use vcm_num::{Items, MOST_PARAMETERS};

/// A macro, with what has to be given for each of its parameters. Contracts see it as a `Defined`.
#[derive(Drop)]
pub(crate) struct Definition {
    name: Name,
    parameters: Items<Parameter>,
    body: Vec<Statement>,
    wanted: Vec<Wanted>,
}

impl Model for Definition {
    ghost use Rattle.std.specs.Prelude.{◌≡◌, map};
    ghost use Rattle.std.specs.Coded.{codes};
    ghost use Rattle.vcm_macro.specs.Walk.{Defined};
    ghost use Rattle.vcm_macro.specs.Rules.{wanted_by};
    ghost use Rattle.vcm_forms.specs.contracts.statement.Parameter as parameter;
    ghost use Rattle.vcm_forms.specs.contracts.statement.Statement as statement;

    ghost Value = { Defined };

    ghost coded = { Prim.hlevel (codes, parameter.the_row.coded, statement.the_row.coded) };

    ghost view = { λ d. record { name = d.name; parameters = d.parameters; body = d.body.items } };

    ghost invariant = { λ d. d.wanted.items ≡ map (wanted_by d.body.items) d.parameters };
}

impl Definition {
    /// The macro of this name.
    ///
    /// # Errors
    ///
    /// Want of memory.
    pub(crate) fn new(
        alloc: Global,
        name: Name,
        parameters: Items<Parameter>,
        body: Vec<Statement>,
    ) -> Result<Definition, AllocError>
        ensures { IfOk result (λ d. d ≡ record { name = name; parameters = parameters; body = body.items }) }
    {
        let wanted = all_wanted(alloc, &body, parameters.as_slice())?;
        Ok(Definition {
            name,
            parameters,
            body,
            wanted,
        })
    }

    pub(crate) fn name(&self) -> &Name
        ensures { result.now ≡ self.now.name }
    {
        &self.name
    }

    pub(crate) fn parameters(&self) -> &[Parameter]
        ensures { result.now ≡ self.now.parameters }
    {
        self.parameters.as_slice()
    }

    /// The statements of the body.
    pub(crate) fn statements(&self) -> &[Statement]
        ensures { result.now ≡ self.now.body }
    {
        &self.body
    }

    /// What has to be given for each parameter.
    pub(crate) fn wanted(&self) -> &[Wanted]
        ensures { result.now ≡ map (wanted_by self.now.body) self.now.parameters }
    {
        &self.wanted
    }

    /// Whether the macro may be called with so many arguments.
    pub(crate) fn takes(&self, arguments: usize) -> bool
        ensures { result ≡ takes self.now arguments }
    {
        self.parameters.len() <= MOST_PARAMETERS && self.parameters.len() == arguments
    }
}

/// The place of the macro of this name, the last one if there are several.
pub(crate) fn find(macros: &[Definition], name: &Name) -> Option<usize>
    ensures { MatchOption result (found (reverse macros.now) name.now ≡ None) (λ i. IsFoundAt macros.now name.now i) }
{
    let mut place = macros.len();
    'found: while place > 0 {
        place -= 1;
        if macros[place].name() == name {
            return Some(place);
        }
    }
    None
}

/// Whether one of the macros has this name.
pub(crate) fn is_defined(macros: &[Definition], name: &Name) -> bool
    ensures { result ≡ list_any (λ m. is_same m.name name.now) (reverse macros.now) }
{
    find(macros, name).is_some()
}
