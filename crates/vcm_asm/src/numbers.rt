//! The numbers of labels, which a table looks up.

ghost use Rattle.std.specs.Prelude.{◌≡◌, [], ◌∷◌, ◌++◌, OnOk};
ghost use Rattle.vcm_asm.specs.Assembled.{place_in};
ghost use Rattle.vcm_asm.specs.inner.Once.{Absent};

use indexmap::IndexMap;
use std::alloc::{AllocError, Global};
use std::marker::Model;
use vcm_nodes::Label;

/// Labels with the numbers of their statements, in the order in which they were added. Contracts see it as a list of marks.
#[derive(Drop)]
pub(crate) struct Numbers {
    map: IndexMap<Label, u32>,
}

impl Model for Numbers {
    ghost use Rattle.std.specs.Prelude.{List};
    ghost use Rattle.vcm_asm.specs.Assembled.{Mark};

    ghost Value = { List Mark };

    ghost view = { λ n. n.map.entries };
}

impl Numbers {
    /// No labels.
    pub(crate) fn new(alloc: Global) -> Numbers
        ensures { result ≡ [] }
    {
        Numbers {
            map: IndexMap::new(alloc),
        }
    }

    /// Adds a label that isn't there yet, with the number of its statement.
    pub(crate) fn add(&mut self, label: Label, number: u32) -> Result<(), AllocError>
        requires { Absent label self.old }
        ensures { OnOk result (self.new ≡ self.old ++ (label, number) ∷ []) }
    {
        self.map.insert(label, number)?;
        Ok(())
    }

    /// The number of a label's statement, 0 where there is none.
    pub(crate) fn place_of(&self, label: &Label) -> u32
        ensures { result ≡ place_in self.now label.now }
    {
        match self.map.get(label) {
            Some(number) => *number,
            None => 0,
        }
    }
}
