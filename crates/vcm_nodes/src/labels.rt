//! Jump labels, which a table looks up.

ghost use Rattle.std.specs.Prelude.{◌≡◌, [], ◌∷◌, ◌++◌, if◌then◌else◌, not, length, take, IfOk, OnErr};
ghost use Rattle.vcm_nodes.specs.Jumps.{is_among};

use crate::node::Label;
use indexmap::IndexSet;
use std::alloc::{AllocError, Global};
use std::marker::Model;

/// Jump labels, none of them twice, in the order in which they were added. Contracts see them as a list.
#[derive(Drop)]
pub struct Labels {
    set: IndexSet<Label>,
}

impl Model for Labels {
    ghost use Rattle.std.specs.Prelude.{List};
    ghost use Rattle.vcm_spec.specs.Program.{Label as Named};

    ghost Value = { List Named };

    ghost view = { λ l. l.set.keys };
}

impl Labels {
    /// No labels.
    pub fn new(alloc: Global) -> Labels
        ensures { result ≡ [] }
    {
        Labels {
            set: IndexSet::new(alloc),
        }
    }

    /// How many there are.
    pub(crate) fn len(&self) -> usize
        ensures { result ≡ length self.now }
    {
        self.set.len()
    }

    /// Whether a label is among them.
    pub(crate) fn contains(&self, label: &Label) -> bool
        ensures { result ≡ is_among self.now label.now }
    {
        self.set.contains(label)
    }

    /// Adds a label, and says whether it was new; one that wasn't is not added.
    ///
    /// Errors: want of memory. The labels are then as they were.
    pub fn add(&mut self, label: Label) -> Result<bool, AllocError>
        ensures new { IfOk result (λ is_new. is_new ≡ not (is_among self.old label)) }
        ensures added { IfOk result (λ is_new. self.new ≡ (if is_new then self.old ++ label ∷ [] else self.old)) }
        ensures unchanged { OnErr result (self.new ≡ self.old) }
    {
        let is_new = self.set.insert(label)?;
        Ok(is_new)
    }

    /// Keeps the first so many, and gives the others up.
    pub(crate) fn truncate(&mut self, count: usize)
        ensures { self.new ≡ take count self.old }
    {
        self.set.truncate(count);
    }
}
