//! The nodes of an accepted program.

ghost use Rattle.std.specs.Prelude.{◌≡◌, OnOk, OnErr, IfOk};
ghost use Rattle.vcm_spec.specs.Program.{Block as Tree, done, no_more, Node as Part};
ghost use Rattle.vcm_nodes.specs.Nodes.{with_last, with_case, with_default, node_of};

use std::alloc::{AllocError, Global};
use std::hash::{Hash, Hasher};
use std::marker::Model;
use vcm_expr::Typed;
use vcm_forms::OperatorText;
use vcm_items::Name;
use vcm_spec::Simple;

/// A simple statement: its expressions are typed, and variables, features and frames go by their indexes. Lengths are in micrometres. Contracts see it as
/// that of the structured program.
pub type Action = Simple<Typed, OperatorText>;

/// A jump label: its name, and the number of the macro expansion that it belongs to, 0 outside macros. Contracts see it as that of the
/// structured program.
#[derive(Drop)]
pub struct Label {
    name: Name,
    expansion: u32,
}

impl Model for Label {
    ghost use Rattle.vcm_spec.specs.Program.{Label as Named};

    ghost Value = { Named };

    ghost view = { λ l. record { name = l.name; expansion = l.expansion } };
}

impl Label {
    /// A label with this name, of this expansion.
    pub fn new(name: Name, expansion: u32) -> Label
        ensures { result ≡ record { name = name; expansion = expansion } }
    {
        Label { name, expansion }
    }

    /// The same label.
    pub fn copy(&self) -> Label
        ensures { result ≡ self.now }
    {
        Label {
            name: self.name.copy(),
            expansion: self.expansion,
        }
    }
}

impl PartialEq for Label {
    ghost use Rattle.std.specs.Cmp.{partial_equiv_from_equiv};
    ghost use Rattle.vcm_spec.specs.Program.{is_same_label};
    ghost use Rattle.vcm_nodes.specs.inner.SameLabels.{label_equiv};

    ghost eq = { is_same_label };

    ghost laws = { partial_equiv_from_equiv label_equiv };

    fn eq(&self, other: &Label) -> bool {
        self.expansion == other.expansion && self.name == other.name
    }
}

impl Eq for Label {
    ghost use Rattle.vcm_nodes.specs.inner.SameLabels.{label_equiv};

    ghost laws = { label_equiv };
}

impl Hash for Label {
    ghost use Rattle.std.specs.Prelude.{◌++◌};
    ghost use Rattle.std.proofs.Common.{ap};
    ghost use Rattle.std.specs.Hash as fed;
    ghost use Rattle.vcm_spec.specs.Program.{Label as Named};
    ghost use Rattle.vcm_nodes.specs.inner.SameLabels.{same_label};

    ghost hash_input = { λ l. fed.u32 l.expansion ++ fed.slice fed.u8 l.name };

    ghost respects_eq = { λ k l e. ap (λ (m : Named). fed.u32 m.expansion ++ fed.slice fed.u8 m.name) (same_label k l e) };

    fn hash<H: Hasher>(&self, state: &mut H) {
        self.expansion.hash(state);
        self.name.hash(state);
    }
}

/// A statement that is counted, or a block with the statements that open, divide and close it. Each statement has the line that it begins
/// on, the first being 1.
#[derive(Drop)]
#[cycle(tree)]
pub enum Node {
    /// A simple statement.
    Simple(u32, Action),
    /// A jump label.
    Label(u32, Label),
    /// `JUMPTO`.
    Jump(u32, Label),
    /// `IF`: its line, its test, the first block, the line of `ELSE` and the second block if there are these, the line of `ENDIF`.
    Choice(u32, Typed, Block, Option<(u32, Block)>, u32),
    /// `DO`: its line, its variable, the first value, the limit, the increment, the body, the line of `ENDDO`.
    Repeat(u32, u16, Typed, Typed, Typed, Block, u32),
    /// `MEAS`: its line, its feature, the body, the line of `ENDMES`.
    Measure(u32, u16, Block, u32),
    /// `SELECT`: its line, its value, its blocks, the line of `ENDSEL`.
    Select(u32, Typed, Cases, u32),
    /// `ENDFIL`, with which a program ends.
    Ending(u32),
}

/// A list of nodes. Contracts see it as a block of the structured program.
#[derive(Drop)]
#[cycle(tree)]
pub struct Block {
    pub(crate) nodes: Vec<Node>,
}

impl Model for Block {
    ghost use Rattle.vcm_spec.specs.Program.{Block as Tree, sizes};
    ghost use Rattle.vcm_nodes.specs.inner.Codes.{block_coded};

    ghost Value = { Tree };

    ghost coded = { block_coded };

    ghost use Rattle.vcm_nodes.specs.Nodes.{block_of};

    ghost view = { λ a. block_of a.nodes.items };

    ghost size = { sizes };

    ghost use Rattle.std.proofs.Common.{arith};
    ghost use Rattle.vcm_nodes.specs.inner.Falls.{block_falls};

    ghost size_decreases = { λ a h. omega (arith, block_falls a.nodes.items) };
}

impl Block {
    /// No nodes.
    pub fn new(alloc: Global) -> Block
        ensures { result ≡ done }
    {
        Block {
            nodes: Vec::new(alloc),
        }
    }

    /// No nodes, and memory for so many.
    ///
    /// Errors: want of memory.
    pub fn with_capacity(alloc: Global, nodes: usize) -> Result<Block, AllocError>
        ensures { IfOk result (λ b. b ≡ done) }
    {
        let nodes = Vec::with_capacity(alloc, nodes)?;
        Ok(Block { nodes })
    }

    /// One node more, behind the others.
    ///
    /// Errors: want of memory. The nodes are then as they were.
    pub fn push(&mut self, node: Node) -> Result<(), AllocError>
        ensures ok { OnOk result (self.new ≡ with_last self.old (node_of node)) }
        ensures unchanged { OnErr result (self.new ≡ self.old) }
    {
        self.nodes.push(node)?;
        Ok(())
    }

    ghost use Rattle.vcm_nodes.specs.Nodes.{block_of};

    /// The nodes in order.
    pub fn nodes(&self) -> &[Node]
        ensures { block_of result.now ≡ self.now }
    {
        &self.nodes
    }
}

/// The blocks of a `SELECT`: each `CASE` with its line, its value, its block and the line of its `ENDCAS`; and `DFTCAS`, if there is one, with
/// its line, its block and the line of its `ENDCAS`. Contracts see them as those of the structured program.
#[derive(Drop)]
#[cycle(tree)]
pub struct Cases {
    cases: Vec<(u32, i64, Block, u32)>,
    other: Option<(u32, Block, u32)>,
}

impl Model for Cases {
    ghost use Rattle.vcm_spec.specs.Program.{Cases as Blocks, case_sizes};
    ghost use Rattle.vcm_nodes.specs.inner.Codes.{cases_coded};

    ghost Value = { Blocks };

    ghost coded = { cases_coded };

    ghost use Rattle.vcm_nodes.specs.Nodes.{cases_of};

    ghost view = { λ a. cases_of a.cases.items a.other };

    ghost size = { case_sizes };

    ghost use Rattle.std.proofs.Common.{arith};
    ghost use Rattle.vcm_nodes.specs.inner.Falls.{cases_fall, default_falls};

    ghost size_decreases = { λ a h. omega (arith, cases_fall a.cases.items a.other, default_falls a.cases.items a.other) };
}

impl Cases {
    ghost use Rattle.std.specs.Option.{option_copied};
    ghost use Rattle.vcm_nodes.specs.Nodes.{cases_of, other_of};

    /// No blocks.
    pub fn new(alloc: Global) -> Cases
        ensures { result ≡ no_more }
    {
        Cases {
            cases: Vec::new(alloc),
            other: None,
        }
    }

    /// One `CASE` more, behind the others.
    ///
    /// Errors: want of memory. The blocks are then as they were.
    pub fn push(
        &mut self,
        line: u32,
        value: i64,
        block: Block,
        close: u32,
    ) -> Result<(), AllocError>
        ensures ok { OnOk result (self.new ≡ with_case self.old line value block close) }
        ensures unchanged { OnErr result (self.new ≡ self.old) }
    {
        self.cases.push((line, value, block, close))?;
        Ok(())
    }

    /// The block of `DFTCAS`.
    pub fn set_default(&mut self, line: u32, block: Block, close: u32)
        ensures { self.new ≡ with_default self.old line block close }
    {
        self.other = Some((line, block, close));
    }

    /// Each `CASE` in order: its line, its value, its block and the line of its `ENDCAS`.
    pub fn cases(&self) -> &[(u32, i64, Block, u32)]
        ensures { cases_of result.now (other_of self.now) ≡ self.now }
    {
        &self.cases
    }

    /// `DFTCAS`, if there is one: its line, its block and the line of its `ENDCAS`.
    pub fn default(&self) -> Option<&(u32, Block, u32)>
        ensures { option_copied result ≡ other_of self.now }
    {
        self.other.as_ref()
    }
}
