//! Accepted programs.

use crate::tables::tables_of;
use crate::titles::Titles;
use std::alloc::Global;
use std::marker::Model;
use std::mem::forget;
use vcm_expr::Names;
use vcm_forms::Notice;
use vcm_items::Tables;
use vcm_nodes::{Block, count};
use vcm_num::NoMemory;

/// A line that has no effect, by its number and its major word.
#[derive(Clone, Copy, PartialEq, Eq)]
pub struct Noticed {
    pub line: u32,
    pub word: Notice,
}

/// The names of a program: its variables, its features and its frames. Contracts see them as `Tables`.
#[derive(Drop)]
pub struct Listing {
    pub variables: Names,
    pub features: Titles,
    pub frames: Titles,
}

impl Model for Listing {
    ghost use Rattle.vcm_spec.specs.Setup.{Tables};

    ghost Value = { Tables };

    ghost view = { λ l. record { variables = l.variables; features = l.features; frames = l.frames } };
}

/// An accepted program, its names, and its notices. Contracts see it as a `Parsed`.
#[derive(Drop)]
pub struct Accepted {
    tree: Block,
    names: Listing,
    notices: Vec<Noticed>,
}

impl Model for Accepted {
    ghost use Rattle.vcm_program.specs.Program.{Parsed, IsWhole};
    ghost use Rattle.vcm_nodes.specs.inner.Codes.{block_coded};
    ghost use Rattle.std.specs.Coded.{codes};

    ghost Value = { Parsed };

    ghost coded = { Prim.hlevel (codes, block_coded) };

    ghost view = { λ a. record { program = a.tree; tables = a.names; notices = a.notices.items } };

    ghost invariant = { λ a. IsWhole a.tree a.names };
}

impl Accepted {
    ghost use Rattle.std.specs.Prelude.{◌≡◌, ◌≤◌, IfOk, OnOk, length};
    ghost use Rattle.vcm_spec.specs.Program.{sizes};
    ghost use Rattle.vcm_program.specs.Program.{Parsed, IsWhole, AreNames};

    /// A whole program.
    pub fn new(tree: Block, names: Listing, notices: Vec<Noticed>) -> Accepted
        requires { IsWhole tree names }
        ensures { result ≡ record { program = tree; tables = names; notices = notices.items } }
    {
        Accepted {
            tree,
            names,
            notices,
        }
    }

    /// The program.
    pub fn tree(&self) -> &Block
        ensures tree { result.now ≡ self.now.program }
        ensures whole { IsWhole self.now.program self.now.tables }
    {
        &self.tree
    }

    /// The variables, in the order of their declarations.
    pub fn variables(&self) -> &Names
        ensures { result.now ≡ self.now.tables.variables }
    {
        &self.names.variables
    }

    /// The features, in the order of the first `FEAT` of each.
    pub fn features(&self) -> &Titles
        ensures { result.now ≡ self.now.tables.features }
    {
        &self.names.features
    }

    /// The frames, in the order of the first `TRANS` or `ROTATE` of each.
    pub fn frames(&self) -> &Titles
        ensures { result.now ≡ self.now.tables.frames }
    {
        &self.names.frames
    }

    /// The names of the program, each at its index: those that the readers above give, at most 4,096 of each kind.
    ///
    /// Errors: want of memory.
    pub fn tables(&self, alloc: Global) -> Result<Tables, NoMemory>
        ensures tables { IfOk result (λ t. t ≡ self.now.tables) }
        ensures variables { OnOk result (length self.now.tables.variables ≤ 4096) }
        ensures features { OnOk result (AreNames self.now.tables.features) }
        ensures frames { OnOk result (AreNames self.now.tables.frames) }
    {
        tables_of(
            alloc,
            &self.names.variables,
            &self.names.features,
            &self.names.frames,
        )
    }

    /// The lines that have no effect, in order.
    pub fn notices(&self) -> &[Noticed]
        ensures { result.now ≡ self.now.notices }
    {
        &self.notices
    }

    /// How many statements are counted.
    pub fn count(&self) -> usize
        ensures { result ≡ sizes self.now.program }
    {
        count(&self.tree)
    }

    /// The notices alone. The memory of the program isn't given back one block after the other: it is kept until the process ends.
    pub fn into_notices(self) -> Vec<Noticed>
        ensures { result.items ≡ self.notices }
    {
        let Accepted {
            tree,
            names,
            notices,
        } = self;
        forget(tree);
        forget(names);
        notices
    }
}
