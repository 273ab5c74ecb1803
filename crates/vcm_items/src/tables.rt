//! The names of a program, each at its index.

ghost use Rattle.std.specs.Prelude.{◌≡◌, IfOk};
ghost use Rattle.vcm_spec.specs.Setup.{kinds_of};

use crate::name::Name;
use crate::variable::Variable;
use std::alloc::Global;
use std::marker::Model;
use vcm_num::{Items, Kind, NoMemory};

/// The names of a program, each at its index: its variables with their kinds, its features and its frames. Contracts see it as the `Tables` of
/// the definitions.
#[derive(Drop)]
pub struct Tables {
    variables: Items<Variable>,
    kinds: Items<Kind>,
    features: Items<Name>,
    frames: Items<Name>,
}

impl Model for Tables {
    ghost use Rattle.std.specs.Prelude.{◌≡◌};
    ghost use Rattle.vcm_spec.specs.Setup.{Tables as Meaning, kinds_of};

    ghost Value = { Meaning };

    ghost view = { λ t. record { variables = t.variables; features = t.features; frames = t.frames } };

    ghost invariant = { λ t. t.kinds ≡ kinds_of t.variables };
}

impl Tables {
    ghost use Rattle.vcm_spec.specs.Fitting.{kinds};

    /// The tables with these variables, features and frames.
    ///
    /// Errors: want of memory.
    pub fn new(
        alloc: Global,
        variables: Items<Variable>,
        features: Items<Name>,
        frames: Items<Name>,
    ) -> Result<Tables, NoMemory>
        ensures { IfOk result (λ t. t ≡ record { variables = variables; features = features; frames = frames }) }
    {
        let kinds = kinds_of(alloc, variables.as_slice())?;
        Ok(Tables {
            variables,
            kinds,
            features,
            frames,
        })
    }

    /// The variables.
    pub fn variables(&self) -> &[Variable]
        ensures { result.now ≡ self.now.variables }
    {
        self.variables.as_slice()
    }

    /// The kinds of the variables.
    pub fn kinds(&self) -> &[Kind]
        ensures { result.now ≡ kinds self.now }
    {
        self.kinds.as_slice()
    }

    /// The names of the features.
    pub fn features(&self) -> &[Name]
        ensures { result.now ≡ self.now.features }
    {
        self.features.as_slice()
    }

    /// The names of the frames.
    pub fn frames(&self) -> &[Name]
        ensures { result.now ≡ self.now.frames }
    {
        self.frames.as_slice()
    }
}

// The kinds of variables.
fn kinds_of(alloc: Global, variables: &[Variable]) -> Result<Items<Kind>, NoMemory>
    ensures { IfOk result (λ kinds. kinds ≡ kinds_of variables.now) }
{
    let mut kinds = Items::new(alloc);
    for variable in variables {
        kinds.push(variable.kind())?;
    }
    Ok(kinds)
}
