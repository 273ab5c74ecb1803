//! The names of features or frames, which a table looks up.

ghost use Rattle.std.specs.Prelude.{◌≡◌, [], Ok, IfOk, OnOk, IfErr, IfSome, IfNone, length, slice_get, Some, ◌≤◌};
ghost use Rattle.vcm_lines.specs.Fault.{NoMemoryOr};
ghost use Rattle.vcm_program.specs.Program.{AreNames};
ghost use Rattle.vcm_program.specs.Titles.{index_of, known, entered, with_name};
ghost use Rattle.vcm_program.specs.Telling.{ToldAt};

use indexmap::IndexSet;
use std::alloc::Global;
use std::marker::Model;
use vcm_items::Name;
use vcm_lines::{FaultCode, SourceFault};
use vcm_num::MOST_NAMES;

/// Names of features or frames, none of them twice, at most 4,096, in the order in which they were entered. Contracts see them as a list.
#[derive(Drop)]
pub struct Titles {
    names: IndexSet<Name>,
}

impl Model for Titles {
    ghost use Rattle.std.specs.Prelude.{List, ℕ};
    ghost use Rattle.vcm_program.specs.Program.{AreNames};

    ghost Value = { List (List ℕ) };

    ghost view = { λ t. t.names.keys };

    ghost invariant = { λ t. AreNames t.names.keys };
}

impl Titles {
    /// No names.
    pub fn new(alloc: Global) -> Titles
        ensures { result ≡ [] }
    {
        Titles {
            names: IndexSet::new(alloc),
        }
    }

    /// How many names there are.
    pub fn len(&self) -> usize
        ensures count { result ≡ length self.now }
        ensures names { AreNames self.now }
    {
        self.names.len()
    }

    /// The name at an index.
    pub fn get(&self, index: usize) -> Option<&Name>
        ensures some { IfSome result (λ n. slice_get self.now index ≡ Some n.now) }
        ensures none { IfNone result (length self.now ≤ index) }
    {
        self.names.get_index(index)
    }

    /// The index of a name, if it was entered.
    fn find(&self, name: &Name) -> Option<u16>
        ensures { result ≡ index_of self.now name.now }
    {
        match self.names.get_index_of(name) {
            Some(index) => Some(index as u16),
            None => None,
        }
    }

    /// The index of a name that is declared above.
    pub fn known(&self, line: u32, name: &Name) -> Result<u16, SourceFault>
        ensures ok { IfOk result (λ i. known self.now name.now ≡ Ok i) }
        ensures fault { IfErr result (ToldAt line (known self.now name.now)) }
    {
        match self.find(name) {
            Some(index) => Ok(index),
            None => Err(SourceFault {
                code: FaultCode::UnknownName,
                line,
            }),
        }
    }

    /// Enters a name that isn't there yet, and gives its index.
    pub fn enter(&mut self, line: u32, name: Name) -> Result<u16, SourceFault>
        ensures ok { IfOk result (λ i. entered self.old name ≡ Ok i) }
        ensures names { OnOk result (self.new ≡ with_name self.old name) }
        ensures fault { IfErr result (NoMemoryOr (ToldAt line (entered self.old name))) }
    {
        match self.find(&name) {
            Some(index) => Ok(index),
            None => {
                let index = self.names.len();
                if index >= MOST_NAMES {
                    let code = FaultCode::TooManyNames;
                    return Err(SourceFault { code, line });
                }
                self.names.insert(name)?;
                Ok(index as u16)
            }
        }
    }
}
