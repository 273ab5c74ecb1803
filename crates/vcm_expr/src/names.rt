//! The variables of a program.

ghost use Rattle.std.specs.Prelude.{◌≡◌, ◌<◌, ◌≤◌, ◌∷◌, ◌++◌, [], length, slice_get, not, if◌then◌else◌, Some, None, IfOk, OnErr, IfSome, IfNone, MatchOption};
ghost use Rattle.std.specs.List.{list_any, position};
ghost use Rattle.vcm_spec.specs.Setup.{kinds_of};
ghost use Rattle.vcm_items.specs.Names.{AreNamed, is_named, variable_of, first_of};

use indexmap::IndexMap;
use std::alloc::Global;
use std::marker::Model;
use vcm_items::{Name, VariableName};
use vcm_num::{Kind, NoMemory};

/// The variables that are declared, at most 4,096, in the order of their declarations. Each has a variable's name. Contracts see them as a list
/// of `Variable`s.
#[derive(Drop)]
pub struct Names {
    variables: IndexMap<(u32, Name), Kind>,
}

impl Model for Names {
    ghost use Rattle.std.specs.Prelude.{List, length, map, ◌≤◌};
    ghost use Rattle.vcm_spec.specs.Setup.{Variable};
    ghost use Rattle.vcm_items.specs.Names.{variable_in, AreNamed};

    ghost Value = { List Variable };

    ghost view = { λ n. map variable_in n.variables.entries };

    ghost invariant = { λ n. (length n.variables.entries ≤ 4096) × AreNamed (map variable_in n.variables.entries) };
}

impl Names {
    /// No variables.
    pub fn new(alloc: Global) -> Names
        ensures { result ≡ [] }
    {
        Names {
            variables: IndexMap::new(alloc),
        }
    }

    /// How many variables there are.
    pub fn len(&self) -> usize
        ensures count { result ≡ length self.now }
        ensures few { length self.now ≤ 4096 }
        ensures named { AreNamed self.now }
    {
        self.variables.len()
    }

    /// The variable at an index: its expansion, its name and its kind.
    pub fn get(&self, index: usize) -> Option<(u32, &Name, Kind)>
        ensures some { IfSome result (λ v. slice_get self.now index ≡ Some (record { name = v.1.now; kind = v.2; expansion = v.0 })) }
        ensures none { IfNone result (length self.now ≤ index) }
    {
        let (key, kind) = self.variables.get_index(index)?;
        Some((key.0, &key.1, *kind))
    }

    /// Adds a variable of an expansion (0 outside macros), and says whether its name was new there; one that wasn't is not added.
    ///
    /// # Errors
    ///
    /// Want of memory; then nothing is added.
    pub fn declare(
        &mut self,
        expansion: u32,
        name: VariableName,
        kind: Kind,
    ) -> Result<bool, NoMemory>
        requires { length self.old < 4096 }
        ensures new { IfOk result (λ is_new. is_new ≡ not (list_any (is_named expansion name) self.old)) }
        ensures added { IfOk result (λ is_new. self.new ≡ (if is_new then self.old ++ record { name = name; kind = kind; expansion = expansion } ∷ [] else self.old)) }
        ensures unchanged { OnErr result (self.new ≡ self.old) }
    {
        let key = (expansion, name.into_name());
        if self.variables.contains_key(&key) {
            return Ok(false);
        }
        self.variables.insert(key, kind)?;
        Ok(true)
    }

    /// The index of the variable with this name in this very expansion.
    fn index_in(&self, expansion: u32, name: &Name) -> Option<usize>
        ensures { result ≡ position (is_named expansion name.now) self.now }
    {
        let key = (expansion, name.copy());
        self.variables.get_index_of(&key)
    }

    /// The variable that a name stands for in an expansion, which is that expansion's own or one that is declared outside macros: its index
    /// and its kind.
    pub fn find(&self, expansion: u32, name: &Name) -> Option<(u16, Kind)>
        ensures { MatchOption result (variable_of self.now expansion name.now ≡ None)
            (λ v. (variable_of self.now expansion name.now ≡ Some v.0) × (slice_get (kinds_of self.now) v.0 ≡ Some v.1)) }
    {
        let index = match self.index_in(expansion, name) {
            Some(index) => index,
            None => self.index_in(0, name)?,
        };
        let (_, kind) = self.variables.get_index(index)?;
        Some((index as u16, *kind))
    }
}
