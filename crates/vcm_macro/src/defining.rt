//! Reads the definition of a macro.

ghost use Rattle.std.specs.Prelude.{◌≡◌, [], IfOk, MatchResult};
ghost use Rattle.vcm_macro.specs.Walk.{Inside, with_statement};
ghost use Rattle.vcm_macro.specs.Rules.{codes_at};
ghost use Rattle.vcm_macro.specs.inner.Expanding.{is_macro_end, TellsLeftmost};

use crate::blocks::Blocks;
use crate::definition::Definition;
use crate::parameters::redeclares;
use std::alloc::{AllocError, Global};
use std::marker::Model;
use vcm_forms::{Form, Parameter, Statement};
use vcm_items::Name;
use vcm_lines::{FaultCode, SourceFault};
use vcm_num::Items;

/// A macro whose ENDMAC is not read yet, and the blocks that are open in it. Contracts see it as a `Defined`.
#[derive(Drop)]
pub(crate) struct Opened {
    name: Name,
    parameters: Items<Parameter>,
    body: Vec<Statement>,
    blocks: Blocks,
}

impl Model for Opened {
    ghost use Rattle.std.specs.Prelude.{◌≡◌, []};
    ghost use Rattle.std.specs.Coded.{codes};
    ghost use Rattle.vcm_macro.specs.Walk.{Defined};
    ghost use Rattle.vcm_macro.specs.Rules.{blocks_after};
    ghost use Rattle.vcm_forms.specs.contracts.statement.Parameter as parameter;
    ghost use Rattle.vcm_forms.specs.contracts.statement.Statement as statement;

    ghost Value = { Defined };

    ghost coded = { Prim.hlevel (codes, parameter.the_row.coded, statement.the_row.coded) };

    ghost view = { λ o. record { name = o.name; parameters = o.parameters; body = o.body.items } };

    ghost invariant = { λ o. o.blocks ≡ blocks_after [] o.body.items };
}

/// Whether a statement is ENDMAC.
pub(crate) fn is_macro_end(form: &Form) -> bool
    ensures { result ≡ is_macro_end form.now }
{
    matches!(form, Form::MacroEnd)
}

impl Opened {
    /// Nothing of its body is read.
    pub(crate) fn new(alloc: Global, name: Name, parameters: Items<Parameter>) -> Opened
        ensures { result ≡ record { name = name; parameters = parameters; body = [] } }
    {
        Opened {
            name,
            parameters,
            body: Vec::new(alloc),
            blocks: Blocks::new(alloc),
        }
    }

    /// A statement may stand here, or ENDMAC.
    pub(crate) fn judge(&self, statement: &Statement) -> Result<(), SourceFault>
        ensures { MatchResult result (λ _. codes_at 0 (Inside self.now statement.now) ≡ []) (TellsLeftmost statement.now.line (codes_at 0 (Inside self.now statement.now))) }
    {
        let line = statement.line;
        if redeclares(self.parameters.as_slice(), &statement.form) {
            let code = FaultCode::DuplicateName;
            return Err(SourceFault { code, line });
        }
        if self.blocks.unbalances(&statement.form) {
            let code = FaultCode::Unbalanced;
            return Err(SourceFault { code, line });
        }
        Ok(())
    }

    /// With one more statement of the body.
    pub(crate) fn taken(self, statement: Statement) -> Result<Opened, AllocError>
        ensures { IfOk result (λ o. o ≡ with_statement self statement) }
    {
        let Opened {
            name,
            parameters,
            mut body,
            mut blocks,
        } = self;
        blocks.take(&statement.form)?;
        body.push(statement)?;
        Ok(Opened {
            name,
            parameters,
            body,
            blocks,
        })
    }

    /// The macro behind its ENDMAC.
    pub(crate) fn closed(self, alloc: Global) -> Result<Definition, AllocError>
        ensures { IfOk result (λ d. d ≡ self) }
    {
        Definition::new(alloc, self.name, self.parameters, self.body)
    }
}
