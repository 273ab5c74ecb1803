//! Variables of a program.

ghost use Rattle.std.specs.Prelude.{◌≡◌};

use crate::name::Name;
use std::marker::Model;
use vcm_num::Kind;

/// A variable of a program: its name, its kind, and the number of the macro expansion that it belongs to, 0 outside macros.
#[derive(Drop)]
pub struct Variable {
    name: Name,
    kind: Kind,
    expansion: u32,
}

impl Model for Variable {
    ghost use Rattle.vcm_spec.specs.Setup.{Variable as Meaning};

    ghost Value = { Meaning };

    ghost view = { λ v. record { name = v.name; kind = v.kind; expansion = v.expansion } };
}

impl Variable {
    /// The variable with this name and kind, of this expansion.
    pub fn new(name: Name, kind: Kind, expansion: u32) -> Variable
        ensures { result ≡ record { name = name; kind = kind; expansion = expansion } }
    {
        Variable {
            name,
            kind,
            expansion,
        }
    }

    /// Its name.
    pub fn name(&self) -> &Name
        ensures { result.now ≡ self.now.name }
    {
        &self.name
    }

    /// Its kind.
    pub fn kind(&self) -> Kind
        ensures { result ≡ self.now.kind }
    {
        self.kind
    }

    /// The number of the macro expansion that it belongs to, 0 outside macros.
    pub fn expansion(&self) -> u32
        ensures { result ≡ self.now.expansion }
    {
        self.expansion
    }
}
