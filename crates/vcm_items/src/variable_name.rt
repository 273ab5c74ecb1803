//! The names of variables.

ghost use Rattle.std.specs.Prelude.{◌≡◌, true};
ghost use Rattle.vcm_items.specs.NameBytes.{is_variable_name, IsName, IsVariableName};

use crate::name::{Name, is_name};
use std::marker::Model;

/// Whether bytes are a variable's name: a name that begins with a letter.
pub fn is_variable_name(bytes: &[u8]) -> bool
    ensures value { result ≡ is_variable_name bytes.now }
    ensures name { result ≡ true → IsName bytes.now }
{
    match bytes {
        [] => false,
        [first, ..] => first.is_ascii_uppercase() && is_name(bytes),
    }
}

/// A variable's name: a name that begins with a letter. Contracts see it as the list of its bytes.
#[derive(Drop)]
pub struct VariableName {
    name: Name,
}

impl Model for VariableName {
    ghost use Rattle.std.specs.Prelude.{ℕ, List};
    ghost use Rattle.vcm_items.specs.NameBytes.{IsVariableName};

    ghost Value = { List ℕ };

    ghost view = { λ v. v.name };

    ghost invariant = { λ v. IsVariableName v.name };
}

impl VariableName {
    /// The name with these bytes.
    #[tactic(auto, using(crate::proofs::NameLemmas::variable_name_is_name))]
    pub fn new(bytes: &[u8]) -> VariableName
        requires { IsVariableName bytes.now }
        ensures { result ≡ bytes.now }
    {
        VariableName {
            name: Name::new(bytes),
        }
    }

    /// The name as any other.
    pub fn name(&self) -> &Name
        ensures is { result.now ≡ self.now }
        ensures letter { IsVariableName self.now }
    {
        &self.name
    }

    /// The same name.
    pub fn copy(&self) -> VariableName
        ensures { result ≡ self.now }
    {
        VariableName {
            name: self.name.copy(),
        }
    }

    /// The name alone.
    pub fn into_name(self) -> Name
        ensures is { result ≡ self }
        ensures letter { IsVariableName self }
    {
        self.name
    }
}
